// Where a name ends, by masks.
ghost use Rattle.std.specs.Prelude.{◌≡◌, not, ◌&&◌, ◌-◌, ◌≤◌, ◌<◌, eqb, get_or};
ghost use Rattle.numbers.specs.Search.{zeros_at};
ghost use Rattle.table.specs.Total.{slots};
ghost use Rattle.table.specs.Lists.{call_at};
ghost use Rattle.table.specs.Words.{table_of};

use table::layout::Words;
use table_words::names::name_word;

// The masks of the bytes past a name of n bytes: those of its eight words stand in row n % 4, from the place 8 - n / 4
// on.
static PAST: [u32; 64] = [
    0,
    0,
    0,
    0,
    0,
    0,
    0,
    0,
    0xffff_ffff,
    0xffff_ffff,
    0xffff_ffff,
    0xffff_ffff,
    0xffff_ffff,
    0xffff_ffff,
    0xffff_ffff,
    0xffff_ffff,
    0,
    0,
    0,
    0,
    0,
    0,
    0,
    0,
    0xffff_ff00,
    0xffff_ffff,
    0xffff_ffff,
    0xffff_ffff,
    0xffff_ffff,
    0xffff_ffff,
    0xffff_ffff,
    0xffff_ffff,
    0,
    0,
    0,
    0,
    0,
    0,
    0,
    0,
    0xffff_0000,
    0xffff_ffff,
    0xffff_ffff,
    0xffff_ffff,
    0xffff_ffff,
    0xffff_ffff,
    0xffff_ffff,
    0xffff_ffff,
    0,
    0,
    0,
    0,
    0,
    0,
    0,
    0,
    0xff00_0000,
    0xffff_ffff,
    0xffff_ffff,
    0xffff_ffff,
    0xffff_ffff,
    0xffff_ffff,
    0xffff_ffff,
    0xffff_ffff,
];

// A name ends at its size, which the caller has tested: its last byte is not zero, and zeros stand past it.
pub fn ends_at(t: &Words, i: usize, size: usize) -> bool
    requires { (i < slots) × (0 < size) × (size ≤ 32) }
    ensures { result ≡ (zeros_at (call_at (table_of t.now) i).name size (32 - size) && not (eqb (get_or (call_at (table_of t.now) i).name (size - 1) 0) 0)) }
{
    let row = 16 * (size % 4) + 8 - size / 4;
    let last = size - 1;
    let before = 16 * (last % 4) + 8 - last / 4;
    let mut clear = true;
    let mut ends = false;
    for k in 0..8 {
        let w = name_word(t, i, k);
        clear &= w & PAST[row + k] == 0;
        ends |= w & PAST[before + k] != 0;
    }
    clear & ends
}
