// The connections of Call ID 0.
ghost use Rattle.std.specs.Prelude.{◌≡◌, ◌<◌};
ghost use Rattle.lists.specs.Count.{has};
ghost use Rattle.table.specs.Lists.{standalone_at};
ghost use Rattle.table.specs.Rules.{is_lsp};
ghost use Rattle.table.specs.Words.{table_of};
ghost use Rattle.spec_calls.specs.PathRules.{lsp_of, held_by};
ghost use Rattle.find_connection.specs.Looks.{standalone_found_of, standalone_look_of};

use crate::four::{holds, match_four};
use messages::message::{Connection, Lsp};
use table::layout::{CUSTOMERS, Words};
use table_words::fours::customer_four;
use table_words::head::listed;

// A customer has the connection. Whoever asks says why the record is one of the eight.
fn stands_with(t: &Words, n: usize, k: usize, x: Lsp) -> bool
    requires { (k < 8) × (n ≡ (table_of t.now).listed) }
    ensures { result ≡ has (is_lsp (lsp_of x)) (standalone_at (table_of t.now) k) }
{
    holds(k < n, t, customer_four(t, k), x)
}

// The customer with which a connection stands.
pub fn find_standalone(t: &Words, x: Lsp) -> Option<usize>
    ensures { result ≡ standalone_found_of (table_of t.now) (lsp_of x) }
{
    let n = listed(t);
    (0..CUSTOMERS).find(|k| stands_with(t, n, *k, x))
}

// Kept: a look of its own beside `look_under`, which asks each used slot's call too, whether it is the connection's: what
// both share is `match_four`.
//
// What the customers' places say of a Path's connection: held under another Call ID than its own, which is where its own
// is not 0; held; how many of its four stand there.
#[derive(Clone, Copy)]
pub struct StandaloneLook {
    pub other: bool,
    pub held: bool,
    pub four: usize,
}

pub fn look_standalone(t: &Words, x: Connection) -> StandaloneLook
    ensures { result ≡ standalone_look_of (table_of t.now) (held_by x) }
{
    let n = listed(t);
    let mut other = false;
    let mut held = false;
    let mut four: usize = 0;
    for k in 0..CUSTOMERS {
        let m = match_four(k < n, t, customer_four(t, k), x);
        other = other | m.other;
        held = held | m.held;
        four += m.four;
    }
    StandaloneLook { other, held, four }
}
