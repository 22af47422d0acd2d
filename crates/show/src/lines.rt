// The lines that the program writes. Their text is lent, so that one piece of memory serves every part of a stream.
use super::words::{Reason, Words};
use gateway::{Fault, count, piece, read};
use std::alloc::AllocError;
use units::OpenOrders;

// The place of a piece, and what it says or why it is refused.
fn line(text: &mut String, piece: Result<&[u8], Fault>, place: usize) -> Result<(), AllocError> {
    match piece.and_then(|frame| read::<OpenOrders>(frame, place)) {
        Ok(message) => writeln!(text, "{place} {}", Words(&message)),
        Err(fault) => writeln!(text, "{place} {}", Reason(&fault)),
    }
}

// The lines of the pieces of a part of a stream that begins at a place.
pub(super) fn pieces(text: &mut String, bytes: &[u8], place: usize) -> Result<(), AllocError> {
    // The index is the piece's own name, which the cutting takes: it goes over no list.
    for index in 0..count(bytes) {
        let at = place.saturating_add(index);
        if let Some(piece) = piece(bytes, index, at) {
            line(text, piece, at)?;
        }
    }
    Ok(())
}
