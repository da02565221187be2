// How what a checkpoint holds is spread: by the numbers that tell one from another, over 2,048 places. Four factors, made
// of the checkpoint's bytes, decide the places, so that whoever chooses records that meet in one place changes the
// factors by them. Only the time that a reading takes rests on this: every claim holds for any factors.
#![tactic(auto)]

ghost use Rattle.std.specs.Prelude.{◌≡◌, ◌*◌, ◌<◌};
ghost use Rattle.checkpoint_chains.specs.Spread.{stirred_with, mixed_with, spread_over};

use crate::digest::digest_of;

mod digest;

#[derive(Clone, Copy)]
pub struct Factors {
    pub first: u32,
    pub second: u32,
    pub third: u32,
    pub fourth: u32,
}

// One number made of three. Where two of them stay, the others' results stay apart: x * (2 * x + 1) has each value once.
// It is no sum of what each bit adds, so that numbers in even steps do not meet; and its halves change places, since
// none of its bits depends on a higher one of x.
fn stirred(factor: u32, sum: u32, number: u32) -> u32
    ensures { result ≡ stirred_with factor sum number }
{
    let x = factor.wrapping_add(sum).wrapping_add(number);
    let y = x.wrapping_mul(2).wrapping_add(1);
    let z = x.wrapping_mul(y);
    z % 65536 * 65536 + z / 65536
}

// Nothing is promised of the factors: any would do.
pub fn factors_of(s: &[u8]) -> Factors {
    let d = digest_of(s);
    Factors {
        first: (d.one >> 32) as u32,
        second: (d.one % 4294967296) as u32,
        third: (d.two >> 32) as u32,
        fourth: (d.two % 4294967296) as u32,
    }
}

// A number more: one number made of several, for what is told apart by many.
#[tactic(auto, unfolding(crate::specs::Spread::mixed_with))]
pub fn mixed(f: Factors, sum: u32, number: u32) -> u32
    ensures { result ≡ mixed_with f sum number }
{
    stirred(f.fourth, sum, number)
}

// The place of four numbers. After the last of them all is stirred twice more, as often as it takes for numbers that
// differ in a few high bits to be as far apart as any.
pub fn spread(f: Factors, a: u32, b: u32, c: u32, d: u32) -> usize
    ensures { (result ≡ spread_over f a b c d) × (result < 2048) }
{
    let two = stirred(f.first, stirred(f.third, 0, c), a);
    let four = stirred(f.fourth, stirred(f.second, two, b), d);
    let last = stirred(f.third, stirred(f.first, four, 0), 0);
    (last / 2097152) as usize
}
