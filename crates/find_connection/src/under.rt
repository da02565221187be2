// The connections under the open calls.
ghost use Rattle.std.specs.Prelude.{◌≡◌, ◌+◌, ◌*◌, ◌≤◌, ◌<◌};
ghost use Rattle.lists.specs.Count.{has};
ghost use Rattle.table.specs.Total.{slots};
ghost use Rattle.table.specs.Lists.{call_at, ids_of, held_at};
ghost use Rattle.table.specs.Rules.{is_lsp};
ghost use Rattle.table.specs.Words.{table_of};
ghost use Rattle.spec_changes.specs.Connections.{is_named};
ghost use Rattle.spec_calls.specs.PathRules.{lsp_of, held_by};
ghost use Rattle.find_connection.specs.Looks.{under_found_of, under_look_of, under_look_with};

use crate::four::{holds, match_four};
use messages::message::{Connection, Lsp};
use objects::fields::CallId;
use occupancy::{is_used, used_below};
use table::layout::Words;
use table_words::calls::call_head;
use table_words::fours::call_four;
use table_words::ids::is_call;

// A slot's call has the connection. Whoever asks says why the slot is one of the table's.
fn stands_under(t: &Words, i: usize, x: Lsp) -> bool
    requires { i < slots }
    ensures { result ≡ has (is_lsp (lsp_of x)) (held_at (table_of t.now) i) }
{
    holds(is_used(t, i), t, call_four(t, i), x)
}

// The slot under whose call a connection stands.
pub fn find_under(t: &Words, x: Lsp) -> Option<usize>
    ensures { result ≡ under_found_of (table_of t.now) (lsp_of x) }
{
    (0..used_below(t)).find(|i| stands_under(t, *i, x))
}

// What the open calls say of a Path's connection: held under another Call ID than its own; held; how many of its four
// stand there; the slot in which its call is open.
#[derive(Clone, Copy)]
pub struct UnderLook {
    pub other: bool,
    pub held: bool,
    pub four: usize,
    pub slot: Option<usize>,
}

// The slot's call has this Call ID, and is of this pair. A slot is one of the table's.
pub fn is_named(t: &Words, i: usize, call: CallId, endpoint: u32, sender: u32) -> bool
    requires { i < slots }
    ensures { result ≡ is_named call.0 endpoint sender (ids_of (call_at (table_of t.now) i)) }
{
    let c = call_head(t, i);
    is_call(call, c.id) & (endpoint == c.endpoint) & (sender == c.sender)
}

// A look with one slot more. Only a call of the connection's sender changes it. No slot adds more than four.
fn looked(look: UnderLook, used: bool, t: &Words, i: usize, x: Connection) -> UnderLook
    requires { (i < slots) × (look.four ≤ 4 * i) }
    ensures { (result ≡ under_look_with look i used (call_at (table_of t.now) i) (held_by x)) × (result.four ≤ look.four + 4) }
{
    let f = call_four(t, i);
    if !(used & (x.lsp.sender == f.sender)) {
        return look;
    }
    let m = match_four(true, t, f, x);
    let here = is_named(t, i, x.call, x.lsp.endpoint, x.lsp.sender);
    UnderLook {
        other: look.other | m.other,
        held: look.held | m.held,
        four: look.four + m.four,
        slot: look.slot.or(here.then_some(i)),
    }
}

pub fn look_under(t: &Words, x: Connection) -> UnderLook
    ensures { result ≡ under_look_of (table_of t.now) (held_by x) }
{
    let mut look = UnderLook {
        other: false,
        held: false,
        four: 0,
        slot: None,
    };
    for i in 0..used_below(t) {
        look = looked(look, is_used(t, i), t, i, x);
    }
    look
}
