// One four, a call's or a customer's, beside a connection. Whether it holds the connection is asked of the connection
// alone (`Lsp`), without a Call ID; which of those in it count among the connection's own four, of Call ID, sender and
// end point.
ghost use Rattle.std.specs.Prelude.{◌≡◌, ◌&&◌, ◌<◌};
ghost use Rattle.lists.specs.Count.{has};
ghost use Rattle.table.specs.Lists.{place_at, is_taken, connection_at, held_in};
ghost use Rattle.table.specs.Rules.{is_lsp};
ghost use Rattle.table_words.specs.Fours.{four_at_word};
ghost use Rattle.spec_changes.specs.Connections.{in_four};
ghost use Rattle.spec_calls.specs.PathRules.{lsp_of, held_by};
ghost use Rattle.find_connection.specs.Looks.{Matched};

use messages::message::{Connection, Lsp};
use objects::fields::CallId;
use table::layout::{PLACES, Words};
use table_words::fours::{FourPlace, endpoint_at, place_words};
use table_words::ids::{is_call, is_lsp, is_no_call, is_tunnel};

// A place holds the connection.
pub fn holds_at(t: &Words, f: FourPlace, j: usize, x: Lsp) -> bool
    requires { j < 4 }
    ensures { result ≡ (is_taken (place_at (four_at_word t.now f) j) && is_lsp (lsp_of x) (connection_at (four_at_word t.now f) j)) }
{
    let p = place_words(t, f, j);
    let endpoint = x.endpoint == endpoint_at(t, f, j);
    let sender = x.sender == f.sender;
    let tunnel = is_tunnel(x.tunnel, p.tunnel);
    let lsp = is_lsp(x.lsp, p.lsp);
    let extended = x.extended == p.extended;
    (p.taken == 1) & (endpoint & sender & tunnel & extended & lsp)
}

// A four holds the connection. One that does not count, or is of another sender, holds nothing.
pub fn holds(used: bool, t: &Words, f: FourPlace, x: Lsp) -> bool
    ensures { result ≡ (used && has (is_lsp (lsp_of x)) (held_in (four_at_word t.now f))) }
{
    if !(used & (x.sender == f.sender)) {
        return false;
    }
    (0..PLACES).any(|j| holds_at(t, f, j, x))
}

// A place is taken by one that counts among the four of a Call ID, a sender and an end point.
fn counts_at(t: &Words, f: FourPlace, j: usize, call: CallId, sender: u32, endpoint: u32) -> bool
    requires { j < 4 }
    ensures { result ≡ (is_taken (place_at (four_at_word t.now f) j) && in_four call.0 sender endpoint (connection_at (four_at_word t.now f) j)) }
{
    let p = place_words(t, f, j);
    let to = endpoint == endpoint_at(t, f, j);
    (p.taken == 1) & (is_call(call, f.call) & (sender == f.sender) & (is_no_call(call) | to))
}

// What a four says of a Path's connection: whether it holds it under another Call ID than its own, whether it holds it,
// and how many of its four stand there.
#[derive(Clone, Copy)]
pub struct Match {
    pub other: bool,
    pub held: bool,
    pub four: usize,
}

// A four that does not count, or is of another sender, has nothing to say.
pub fn match_four(used: bool, t: &Words, f: FourPlace, x: Connection) -> Match
    ensures { Matched used (held_by x) (held_in (four_at_word t.now f)) result.other result.held result.four }
{
    if !(used & (x.lsp.sender == f.sender)) {
        return Match {
            other: false,
            held: false,
            four: 0,
        };
    }
    let mut held = false;
    let mut four: usize = 0;
    for j in 0..PLACES {
        held = held | holds_at(t, f, j, x.lsp);
        four += usize::from(counts_at(t, f, j, x.call, x.lsp.sender, x.lsp.endpoint));
    }
    let own = is_call(x.call, f.call);
    Match {
        other: held & !own,
        held,
        four,
    }
}
