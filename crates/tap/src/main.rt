// The tap: frames on standard input, a 16-bit length and that many bytes each, the roster first and then messages. It
// prints the roster's answer, and for each message its number, the answer and the reply's length. A cut frame prints
// `cut` and ends it.
#![tactic(auto)]

use expiry::{CLOSING_WORDS, Closings};
use node::handle::handle;
use numbers::big_endian::get16;
use rosters::read_roster;
use std::io;
use std::io::Read;
use streams::read_full;
use table::answer::roster_number;
use table::layout::{WORDS, Words};

// What comes next: nothing, a cut frame, or one with these bytes.
// Kept: three cases, which an Option or a Result would nest.
#[derive(Clone, Copy)]
enum Frame<'a> {
    End,
    Cut,
    Whole(&'a [u8]),
}

// The next frame, put at the front of the space, which has room for the largest.
fn next_frame<'a>(input: &mut impl Read, space: &'a mut [u8]) -> io::Result<Frame<'a>> {
    let mut head = [0u8; 2];
    let got = read_full(input, &mut head)?;
    if got == 0 {
        return Ok(Frame::End);
    }
    let size = usize::from(get16(&head, 0));
    if (got < 2) | (space.len() < size) {
        return Ok(Frame::Cut);
    }
    if read_full(input, &mut space[..size])? < size {
        return Ok(Frame::Cut);
    }
    Ok(Frame::Whole(&space[..size]))
}

// The n-th message. No time passes here (02: the tap hands in only zeros).
fn answer_message(rt: &impl Print, t: &mut Words, n: u64, message: &[u8]) -> io::Result<()> {
    let mut reply = [0u8; 256];
    let mut closings: Closings = [0; CLOSING_WORDS];
    let r = handle(t, message, &mut reply, 0, 0, &mut closings);
    println!(rt; "{n} {} {}", u8::from(r.answer), r.length)
}

// A proved loop has to end, and nothing says that the input does: it counts its messages, and no run has that many.
fn answer_all(
    rt: &impl Print,
    input: &mut impl Read,
    t: &mut Words,
    space: &mut [u8],
) -> io::Result<()> {
    for before in 0..u64::MAX {
        match next_frame(input, space)? {
            Frame::End => return Ok(()),
            Frame::Cut => return println!(rt; "cut"),
            Frame::Whole(message) => answer_message(rt, t, before + 1, message)?,
        }
    }
    Ok(())
}

fn answer_frames(rt: &impl Print, input: &mut impl Read, space: &mut [u8]) -> io::Result<()> {
    let mut t: Words = [0; WORDS];
    match next_frame(input, space)? {
        Frame::End => return Ok(()),
        Frame::Cut => return println!(rt; "cut"),
        Frame::Whole(roster) => {
            println!(rt; "roster {}", roster_number(read_roster(&mut t, roster)))?;
        }
    }
    answer_all(rt, input, &mut t, space)
}

fn main(rt: HostRuntime) -> io::Result<()> {
    let mut space = [0u8; 65536];
    answer_frames(&rt, &mut rt.stdin(), &mut space)
}
