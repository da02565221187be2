// The test behind answer 1: every table rule, over the whole table.
#![tactic(auto)]

ghost use Rattle.std.specs.Prelude.{◌≡◌};
ghost use Rattle.table.specs.Rules.{rules_hold};
ghost use Rattle.table.specs.Words.{table_of};

use rule_connections::connections_once;
use rule_keys::keys_apart;
use rule_limits::{roster_holds, shares_hold, slots_within_total};
use rule_uniqueness::ids_once;
use rule_zeros::names_and_zeros;
use table::layout::Words;

// Whether a table keeps the rules: any table at all. Where no two keys are equal nothing stands twice; where two are, or
// the chains are too long to tell, all pairs are compared.
pub fn rules_hold(t: &Words) -> bool
    ensures { result ≡ rules_hold (table_of t.now) }
{
    if !(roster_holds(t) & slots_within_total(t) & names_and_zeros(t)) {
        return false;
    }
    if !shares_hold(t) {
        return false;
    }
    if keys_apart(t) {
        return true;
    }
    ids_once(t) & connections_once(t)
}
