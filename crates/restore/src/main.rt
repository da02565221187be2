// Reads a table back: three frames on standard input, a 32-bit length and that many bytes each: a mode byte (0 plain, 1
// salvage), the roster, the copy. It prints the roster's answer, the copy's with how many records were dropped, and
// what the table then holds. A cut frame prints `cut` and ends it.
#![tactic(auto)]

ghost use Rattle.std.specs.Prelude.{◌<◌};
ghost use Rattle.table.specs.Total.{slots};

use checkpoint_read::read_checkpoint;
use numbers::big_endian::get32;
use occupancy::is_used;
use rosters::read_roster;
use std::io;
use std::io::Read;
use std::net::Ipv4Addr;
use streams::read_full;
use table::answer::roster_number;
use table::layout::{CUSTOMERS, PLACES, SLOTS, WORDS, Words};
use table_words::calls::{CallWord, call_head};
use table_words::fours::{
    FourPlace, PlaceWords, call_four, customer_four, endpoint_at, place_words,
};
use table_words::names::{name_byte, name_size};

// One byte more than the longest copy has, 4 + 55 * 4095 + 18 * 65535. So what is kept of a longer frame has a length
// that no counts give, and is answered as the whole: 70.
const COPY: usize = 1404860;

// Reads over what does not fit the space: no roster and no copy that is accepted is so long. Says whether all of it came.
fn skip(input: &mut impl Read, size: usize) -> io::Result<bool> {
    let mut left = size;
    while 0 < left {
        let mut scratch = [0u8; 4096];
        let n = left.min(4096);
        if read_full(input, &mut scratch[..n])? < n {
            return Ok(false);
        }
        left -= n;
    }
    Ok(true)
}

// The next frame, at the front of the space, as much of it as fits; none where it is cut.
fn next_frame<'a>(input: &mut impl Read, space: &'a mut [u8]) -> io::Result<Option<&'a [u8]>> {
    let mut head = [0u8; 4];
    if read_full(input, &mut head)? < 4 {
        return Ok(None);
    }
    let size = get32(&head, 0) as usize;
    let kept = size.min(space.len());
    if read_full(input, &mut space[..kept])? < kept {
        return Ok(None);
    }
    if !skip(input, size - kept)? {
        return Ok(None);
    }
    Ok(Some(&space[..kept]))
}

fn print_name(rt: &impl Print, t: &Words, i: usize, size: u32) -> io::Result<()>
    requires { i < slots }
{
    for k in 0..name_size(size) {
        print!(rt; "{:02x}", name_byte(t, i, k))?;
    }
    Ok(())
}

fn print_call(rt: &impl Print, t: &Words, i: usize) -> io::Result<()>
    requires { i < slots }
{
    let c = call_head(t, i);
    let endpoint = Ipv4Addr::from_bits(c.endpoint);
    let sender = Ipv4Addr::from_bits(c.sender);
    print!(rt; "call {i} {endpoint} {sender} {} ", c.id.0)?;
    print_name(rt, t, i, c.size)?;
    println!(rt; "")
}

fn print_connection(
    rt: &impl Print,
    call: CallWord,
    sender: u32,
    endpoint: u32,
    p: PlaceWords,
) -> io::Result<()> {
    let endpoint = Ipv4Addr::from_bits(endpoint);
    let sender = Ipv4Addr::from_bits(sender);
    print!(rt;
        "connection {endpoint} {} {} {}",
        call.0, p.tunnel.0, p.extended
    )?;
    println!(rt; " {sender} {}", p.lsp.0)
}

fn print_four(rt: &impl Print, t: &Words, f: FourPlace) -> io::Result<()> {
    for j in 0..PLACES {
        let p = place_words(t, f, j);
        if p.taken == 1 {
            print_connection(rt, f.call, f.sender, endpoint_at(t, f, j), p)?;
        }
    }
    Ok(())
}

// Calls in slot order, connections in the order of a copy. Free slots and unused records hold no connections.
fn print_table(rt: &impl Print, t: &Words) -> io::Result<()> {
    for i in 0..SLOTS {
        if is_used(t, i) {
            print_call(rt, t, i)?;
        }
    }
    for i in 0..SLOTS {
        print_four(rt, t, call_four(t, i))?;
    }
    for k in 0..CUSTOMERS {
        print_four(rt, t, customer_four(t, k))?;
    }
    Ok(())
}

fn read_table(rt: &impl Print, salvage: bool, roster: &[u8], copy: &[u8]) -> io::Result<()> {
    let mut t: Words = [0; WORDS];
    println!(rt; "roster {}", roster_number(read_roster(&mut t, roster)))?;
    print!(rt; "copy")?;
    match read_checkpoint(&mut t, salvage, roster, copy) {
        Ok(d) => println!(rt; " 0 {} {}", d.calls, d.connections)?,
        Err(e) => println!(rt; " {} 0 0", e.number())?,
    }
    print_table(rt, &t)
}

// The three frames; false where one is cut. Salvage is asked for by a mode byte of 1.
fn read_frames(
    rt: &impl Print,
    input: &mut impl Read,
    mode: &mut [u8],
    roster: &mut [u8],
    copy: &mut [u8; COPY],
) -> io::Result<bool> {
    let Some(mode) = next_frame(input, mode)? else {
        return Ok(false);
    };
    let Some(roster) = next_frame(input, roster)? else {
        return Ok(false);
    };
    let Some(copy) = next_frame(input, copy)? else {
        return Ok(false);
    };
    read_table(rt, mode.first() == Some(&1), roster, copy)?;
    Ok(true)
}

fn print_cut(rt: &impl Print) -> io::Result<()> {
    println!(rt; "cut")
}

fn main(rt: HostRuntime) -> io::Result<()> {
    let mut mode = [0u8; 1];
    let mut roster = [0u8; 4096];
    let mut copy = [0u8; COPY];
    if !read_frames(&rt, &mut rt.stdin(), &mut mode, &mut roster, &mut copy)? {
        print_cut(&rt)?;
    }
    Ok(())
}
