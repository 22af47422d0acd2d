// Reads a recorded stream of frames from standard input and tells, in a line for each frame or short rest, what it says
// or why it is refused. It reads as for an open book, so that all seven kinds are there.
#![tactic(auto)]

ghost use Rattle.std.specs.Prelude.{◌+◌, ◌<◌, ◌≤◌, length, IfOk};

mod lines;
mod words;

use gateway::{FRAME, keep_rest};
use std::io;
use std::io::{Read, Write};

// The bytes that are held at a time: so many frames are answered before their lines are written.
const BUFFER: usize = 65_536;

// Writes the lines of the pieces of a part of the stream that begins at a place.
fn answer(
    output: &mut impl Write,
    text: &mut String,
    bytes: &[u8],
    place: usize,
) -> anyhow::Result<()> {
    text.clear();
    lines::pieces(text, bytes, place)?;
    output.write_all(text.as_bytes())?;
    Ok(())
}

// Reads the stream to its end, a part at a time, and answers the whole frames of each part before it waits for the next.
fn show(
    input: &mut impl Read,
    output: &mut impl Write,
    text: &mut String,
    buffer: &mut [u8],
) -> anyhow::Result<()>
    requires { 32 < length buffer.old }
{
    let mut held = 0;
    let mut place: usize = 0;
    // The stream may be of any length, and a loop has to end: it has more turns than any stream has bytes.
    for _ in 0..u64::MAX {
        let read = input.read(&mut buffer[held..])?;
        if read == 0 {
            break;
        }
        held += read;
        let whole = held / FRAME;
        answer(output, text, &buffer[..FRAME * whole], place)?;
        place = place.saturating_add(whole);
        held = keep_rest(buffer, held);
    }
    answer(output, text, &buffer[..held], place)
}

fn run(rt: &HostRuntime) -> anyhow::Result<()> {
    let mut buffer = vec![in rt.alloc(); 0u8; BUFFER]?;
    let mut text = String::new(rt.alloc());
    show(
        &mut rt.stdin(),
        &mut rt.stdout(),
        &mut text,
        buffer.as_mut_slice(),
    )
}

fn main(rt: HostRuntime) -> anyhow::Result<()> {
    run(&rt)
}
