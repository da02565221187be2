// The call that the node made for a request without names, by its pair and its two numbers.
ghost use Rattle.std.specs.Prelude.{◌≡◌, ◌<◌};
ghost use Rattle.std.specs.Bool.{then_some};
ghost use Rattle.lists.specs.Count.{has};
ghost use Rattle.table.specs.Total.{slots};
ghost use Rattle.table.specs.Lists.{call_at, entry_of, entries};
ghost use Rattle.table.specs.Words.{table_of};
ghost use Rattle.spec_changes.specs.Calls.{slot_of};
ghost use Rattle.find_call.specs.Made.{is_made_for};

use objects::fields::MessageId;
use occupancy::{is_used, used_below};
use table::layout::Words;
use table_words::calls::call_head;

// Whoever asks says why the slot is one of the table's.
fn is_made_for(t: &Words, i: usize, endpoint: u32, sender: u32, request: MessageId) -> bool
    requires { i < slots }
    ensures { result ≡ is_made_for endpoint sender request (entry_of i (call_at (table_of t.now) i)) }
{
    let c = call_head(t, i);
    let pair = (endpoint == c.endpoint) & (sender == c.sender);
    let epoch = request.epoch == c.epoch;
    let identifier = request.identifier == c.identifier;
    (c.made == 1) & pair & epoch & identifier
}

// Its slot, where there is one.
pub fn find_made(t: &Words, endpoint: u32, sender: u32, request: MessageId) -> Option<usize>
    ensures { result ≡ then_some (has (is_made_for endpoint sender request) (entries (table_of t.now))) (slot_of (table_of t.now) (is_made_for endpoint sender request)) }
{
    for i in 0..used_below(t) {
        if is_used(t, i) & is_made_for(t, i, endpoint, sender, request) {
            return Some(i);
        }
    }
    None
}
