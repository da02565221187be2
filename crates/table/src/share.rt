// The terms of a roster's record.
ghost use Rattle.std.specs.Prelude.{◌≡◌};
ghost use Rattle.table.specs.Rules.{bad_share};

// Limit 0, limit above the total, or guarantee above limit.
#[tactic(auto, unfolding(crate::specs::Rules::bad_share))]
pub fn bad_share(total: usize, guarantee: usize, limit: usize) -> bool
    ensures { result ≡ bad_share total (record { address = 0; guarantee = guarantee; limit = limit }) }
{
    (limit == 0) | (total < limit) | (limit < guarantee)
}
