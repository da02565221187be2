// How many calls the customers of a roster may have together.
ghost use Rattle.std.specs.Prelude.{◌≡◌, ◌≤◌};
ghost use Rattle.table.specs.Total.{slots, total_for};

use crate::layout::SLOTS;

// Form 2 has all slots, form 1 the first 64 of them.
// Kept: a number and no enum of forms: a table that C lends may hold any, until the rules are known to hold.
pub fn total_for(form: u32) -> usize
    ensures { (result ≡ total_for form) × (result ≤ slots) }
{
    if form == 2 { SLOTS } else { 64 }
}
