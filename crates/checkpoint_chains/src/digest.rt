// A digest of a checkpoint's bytes: the steps of SipHash-2-4 with 128 bits for its result (Aumasson and Bernstein, 2012),
// over words that are read from the highest byte on. Whoever wants a digest that was fixed before has to find bytes that
// lead from one state of 256 bits to another, 64 bits a step: no way to do that is known. Nothing is promised of a
// digest, any would do.
ghost use Rattle.std.specs.Prelude.{◌+◌, ◌≤◌, length};

use numbers::big_endian::get32;

#[derive(Clone, Copy)]
pub struct Digest {
    pub one: u64,
    pub two: u64,
}

#[derive(Clone, Copy)]
struct State {
    a: u64,
    b: u64,
    c: u64,
    d: u64,
}

fn next(v: State) -> State {
    let a = v.a.wrapping_add(v.b);
    let b = v.b.rotate_left(13) ^ a;
    let c = v.c.wrapping_add(v.d);
    let d = v.d.rotate_left(16) ^ c;
    let e = a.rotate_left(32).wrapping_add(d);
    let f = c.wrapping_add(b);
    State {
        a: e,
        b: b.rotate_left(17) ^ f,
        c: f.rotate_left(32),
        d: d.rotate_left(21) ^ e,
    }
}

fn with_word(v: State, word: u64) -> State {
    let w = next(next(State { d: v.d ^ word, ..v }));
    State { a: w.a ^ word, ..w }
}

fn four_on(v: State) -> State {
    next(next(next(next(v))))
}

fn joined(v: State) -> u64 {
    v.a ^ v.b ^ v.c ^ v.d
}

fn word_at(s: &[u8], at: usize) -> u64
    requires { at + 8 ≤ length s.now }
{
    (u64::from(get32(s, at)) << 32) | u64::from(get32(s, at + 4))
}

// All bytes: the words from the first on, the last eight bytes once more, and how many bytes there are. What has fewer
// than eight has no record.
fn with_bytes(v: State, s: &[u8]) -> State {
    if s.len() < 8 {
        return v;
    }
    let words = s.len() / 8;
    let mut w = v;
    for k in 0..words {
        w = with_word(w, word_at(s, 8 * k));
    }
    with_word(with_word(w, word_at(s, s.len() - 8)), s.len() as u64)
}

pub fn digest_of(s: &[u8]) -> Digest {
    let fixed = State {
        a: 0x736f6d6570736575,
        b: 0x646f72616e646f6d ^ 0xee,
        c: 0x6c7967656e657261,
        d: 0x7465646279746573,
    };
    let v = with_bytes(fixed, s);
    let w = four_on(State { c: v.c ^ 0xee, ..v });
    let x = four_on(State { b: w.b ^ 0xdd, ..w });
    Digest {
        one: joined(w),
        two: joined(x),
    }
}
