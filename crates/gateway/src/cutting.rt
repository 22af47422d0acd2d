// Cutting a file into frames and a short rest of 1 to 31 bytes.
ghost use Rattle.std.specs.Prelude.{◌≡◌, ◌%◌, ◌<◌, take, drop};
ghost use Rattle.gateway.specs.Cuts.{whole_in, filled_in, rest_start, count_of, cut_at, piece_at, piece_of};
ghost use Rattle.gateway.specs.Laws.{Covers, Resumes};

use super::faults::Fault;
use super::messages::FRAME;
use units::Refusal;

// How many whole frames a file has.
fn whole_frames(bytes: &[u8]) -> usize
    ensures { result ≡ whole_in bytes.now }
{
    bytes.len() / FRAME
}

// The whole frame at an index.
fn frame_at(bytes: &[u8], index: usize) -> &[u8]
    requires { index < whole_in bytes.now }
    ensures { result.now ≡ cut_at bytes.now index }
{
    &bytes[FRAME * index..FRAME * index + FRAME]
}

// How many pieces a file has: its frames, and its short rest if there is one.
pub fn count(bytes: &[u8]) -> usize
    ensures value { result ≡ count_of bytes.now }
    ensures covers { Covers }
    ensures resumes { Resumes }
{
    bytes.len().div_ceil(FRAME)
}

// The piece of a file at an index: a frame, the fault of the short rest, or none past the end.
// Of a whole file the place is the index. Where a file comes in parts, and each part begins after the last whole frame
// of the one before, the index counts in the part and the place goes on.
#[tactic(auto, using(crate::proofs::Cuts::a_short_rest))]
pub fn piece(bytes: &[u8], index: usize, place: usize) -> Option<Result<&[u8], Fault>>
    ensures { piece_of result ≡ piece_at bytes.now index place }
{
    if index < whole_frames(bytes) {
        Some(Ok(frame_at(bytes, index)))
    } else if index < count(bytes) {
        Some(Err(Fault::new(Refusal::Length, place, 0)))
    } else {
        None
    }
}

// Of the first `held` bytes of a buffer, or of all that it has where they are fewer, lets go of the whole frames and moves the short rest
// to the front, where the next part of the file can follow it. Answers how many bytes the rest has; the places behind it are as they were.
#[tactic(auto, using(crate::proofs::Cuts::front_pasted))]
pub fn keep_rest(buffer: &mut [u8], held: usize) -> usize
    ensures value { result ≡ filled_in held buffer.old % 32 }
    ensures first { take result buffer.new ≡ drop (rest_start held buffer.old) (take (filled_in held buffer.old) buffer.old) }
    ensures rest { drop result buffer.new ≡ drop result buffer.old }
    ensures short { result < 32 }
{
    let end = held.min(buffer.len());
    let start = end - end % FRAME;
    buffer.copy_within(start..end, 0);
    end - start
}
