// Reads messages and rosters from its standard input, one a line in hex, and prints what the node's layers
// make of each. A line's last word is the hex, so a line may begin with a name; `roster` as its first word
// makes it a roster; a line that begins with # is a comment. The input has up to 65,536 bytes.
#![tactic(auto)]

ghost use Rattle.std.specs.Prelude.{◌<◌, ◌≤◌, length, IfSome};

use messages::message::{CallRequest, Connection, Message};
use messages::read::{Received, Refusal, read};
use rosters::read_roster;
use rules::rules_hold;
use std::io;
use streams::read_full;
use table::answer::roster_number;
use table::layout::{CUSTOMERS, WORDS, Words};
use table_words::customers::customer_head;
use table_words::head::{address, epoch, form, listed, next};

fn print_request(rt: &impl Print, kind: &str, r: CallRequest) -> io::Result<()> {
    print!(rt;
        " {kind} {:08x} sender {:08x} call {}",
        r.endpoint, r.sender, r.call.0
    )?;
    print!(rt; " name {}+{}", r.name.at, r.name.size)?;
    print!(rt;
        " epoch {} identifier {}",
        r.sequence.epoch, r.sequence.identifier
    )?;
    print!(rt; " session {}+{}", r.session.at, r.session.size)?;
    print!(rt; " attribute {}+{}", r.attribute.at, r.attribute.size)?;
    print!(rt; " template {}+{}", r.template.at, r.template.size)
}

fn print_connection(rt: &impl Print, kind: &str, c: Connection) -> io::Result<()> {
    print!(rt;
        " {kind} {:08x} sender {:08x} call {}",
        c.lsp.endpoint, c.lsp.sender, c.call.0
    )?;
    print!(rt;
        " tunnel {} extended {:08x} lsp {}",
        c.lsp.tunnel.0, c.lsp.extended, c.lsp.lsp.0
    )?;
    print!(rt; " session {}+{}", c.session.at, c.session.size)?;
    print!(rt; " template {}+{}", c.template.at, c.template.size)
}

fn print_message(rt: &impl Print, m: Message) -> io::Result<()> {
    match m {
        Message::Open(r) => print_request(rt, "open", r),
        Message::Close(r) => print_request(rt, "close", r),
        Message::Add(c) => print_connection(rt, "add", c),
        Message::Drop(c) => print_connection(rt, "drop", c),
    }
}

fn print_reading(rt: &impl Print, r: Result<Received, Refusal>) -> io::Result<()> {
    match r {
        Err(
            Refusal::Misformed {
                fault,
                offset,
                headers,
            },
        ) => println!(rt;
            " refused {} offset {offset} headers {headers}",
            u8::from(fault)
        ),
        Err(
            Refusal::Unfit {
                fault,
                sender,
                headers,
            },
        ) => println!(rt;
            " unfit {} sender {sender:08x} headers {headers}",
            u8::from(fault)
        ),
        Ok(Received { message, headers }) => {
            print_message(rt, message)?;
            println!(rt; " headers {headers}")
        }
    }
}

// The value of a hex digit; capital letters are none.
fn digit(c: u8) -> Option<u8>
    ensures { IfSome result (λ d. d < 16) }
{
    match c {
        b'0'..=b'9' => Some(c - b'0'),
        b'a'..=b'f' => Some(c - b'a' + 10),
        _ => None,
    }
}

// The bytes that a word stands for in hex, put at the front of out: how many there are, none where the word is no hex or out
// has no room.
fn decode(word: &[u8], out: &mut [u8]) -> Option<usize>
    ensures { IfSome result (λ n. n ≤ length out.new) }
{
    let pairs = word.len() / 2;
    if (word.len() % 2 != 0) | (out.len() < pairs) {
        return None;
    }
    for i in 0..pairs {
        let high = digit(word[2 * i])?;
        let low = digit(word[2 * i + 1])?;
        out[i] = high * 16 + low;
    }
    Some(pairs)
}

fn print_customers(rt: &impl Print, t: &Words) -> io::Result<()> {
    let count = listed(t);
    for k in 0..CUSTOMERS {
        if k < count {
            let c = customer_head(t, k);
            print!(rt; " customer {:08x} {} {}", c.address, c.guarantee, c.limit)?;
        }
    }
    Ok(())
}

// What stands in a roster's table: own address and epoch, the next own identifier, the roster's form (0 where it was
// refused), the customers with guarantee and limit, and whether the table keeps the rules.
fn print_table(rt: &impl Print, t: &Words) -> io::Result<()> {
    print!(rt;
        " own {:08x} epoch {} next {} form {}",
        address(t),
        epoch(t),
        next(t),
        form(t)
    )?;
    print_customers(rt, t)?;
    println!(rt; " rules {}", if rules_hold(t) { "hold" } else { "broken" })
}

fn print_roster(rt: &impl Print, s: &[u8]) -> io::Result<()> {
    let mut t: Words = [0; WORDS];
    let answer = read_roster(&mut t, s);
    print!(rt; " roster {}", roster_number(answer))?;
    print_table(rt, &t)
}

// A line begins with the word `roster` where it has one; its last word is the hex.
fn read_line(rt: &impl Print, line: &[u8]) -> io::Result<()> {
    let word = match line.iter().rposition(|b| *b == b' ') {
        Some(space) => &line[space + 1..],
        None => line,
    };
    let mut bytes = [0u8; 4096];
    let Some(n) = decode(word, &mut bytes) else {
        return println!(rt; " not hex");
    };
    if line.starts_with(b"roster ") {
        print_roster(rt, &bytes[..n])
    } else {
        print_reading(rt, read(&bytes[..n]))
    }
}

fn read_lines(rt: &impl Print, text: &[u8]) -> io::Result<()>
    requires { length text.now ≤ 65536 }
{
    let mut at = 0;
    let mut line: u64 = 0;
    while at < text.len() {
        let rest = &text[at..];
        let size = rest.iter().position(|b| *b == b'\n').unwrap_or(rest.len());
        if rest[0] != b'#' {
            line += 1;
            print!(rt; "{line}")?;
            read_line(rt, &rest[..size])?;
        }
        at += size + 1;
    }
    Ok(())
}

fn main(rt: HostRuntime) -> io::Result<()> {
    let mut input = [0u8; 65536];
    let n = read_full(&mut rt.stdin(), &mut input)?;
    read_lines(&rt, &input[..n])
}
