// The parts of one turn, over a book of any kind: what a request may draw on, what fills take from the book, what reports leave of the tables, and the end of a request.
#![tactic(auto)]

mod answers;
mod confirming;
mod ending;
mod finishing;
mod gathering;
mod requests;
mod seat;
mod serving;
mod settling;
mod tables;
mod trading;
mod writing;

pub use confirming::Turned;
pub use ending::end_request;
pub use finishing::Counts;
pub use seat::{Seat, Supply, Wanted};
pub use settling::settle;
pub use tables::{Standing, lessen};
