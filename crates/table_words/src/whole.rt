// The whole table.
ghost use Rattle.std.specs.Prelude.{◌≡◌};
ghost use Rattle.table.specs.Zeros.{empty_table};
ghost use Rattle.table.specs.Words.{table_of};

use table::layout::{NEXT, Words};

// No customers, all zeros, the time too, next own identifier 1.
pub fn clear_table(t: &mut Words)
    ensures { table_of t.new ≡ empty_table }
{
    t.fill(0);
    t[NEXT] = 1;
}
