// The gateway: messages of members as frames of 32 bytes. It cuts a file into frames, reads a frame as a message that
// borrows its reference, or says by a fault why it is refused, and writes the frame of a message.
#![tactic(auto)]

mod codes;
mod cutting;
mod faults;
mod messages;
mod reading;
mod writing;

pub use cutting::{count, keep_rest, piece};
pub use faults::Fault;
pub use messages::{FRAME, Message, REFERENCE};
pub use reading::read;
pub use writing::write;
