// A quick test that nothing stands twice in the table. Each thing that may stand once has a key, a number, the same for
// the same thing: where no two keys are equal, nothing stands twice. Keys of different things can be equal, so the test
// may also fail of a table in which nothing does.
#![tactic(auto)]

ghost use Rattle.std.specs.Prelude.{◌≡◌, ◌++◌, true, ◌+◌, ◌≤◌, ◌<◌, eqb, ltb};
ghost use Rattle.lists.specs.Count.{no_two};
ghost use Rattle.lists.specs.Below.{element_if, list_if};
ghost use Rattle.table.specs.Total.{slots};
ghost use Rattle.table.specs.Word.{is_used};
ghost use Rattle.table.specs.Lists.{call_at, customer_at, customer_four, held_place, held_in};
ghost use Rattle.table.specs.Words.{table_of};
ghost use Rattle.table_words.specs.Fours.{four_at_word};
ghost use Rattle.rule_keys.specs.Keys.{request_key, held_keys, call_keys, keys_of};
ghost use Rattle.rule_keys.specs.Noted.{noted_keys};

use crate::chains::{CHAINS, Noted, ROOM};
use crate::keys::{long_key, lsp_key, request_key, short_key};
use occupancy::{is_used, used_below};
use table::layout::Words;
use table_words::calls::{CallHead, call_head};
use table_words::fours::{FourPlace, call_four, customer_four, endpoint_at, place_words};
use table_words::head::listed;

mod chains;
mod keys;

// How many steps back through chains are taken at most.
const STEPS: usize = 2048;

// Notes the key of a place's connection; a free place has none.
fn note_place(noted: &mut Noted, t: &Words, f: FourPlace, j: usize)
    requires { (noted.old.count < 1432) × (j < 4) }
    ensures { (noted_keys noted.new ≡ noted_keys noted.old ++ held_keys (held_place (four_at_word t.now f) j)) × (noted.new.count ≤ noted.old.count + 1) }
{
    let p = place_words(t, f, j);
    if p.taken == 1 {
        noted.note(lsp_key(endpoint_at(t, f, j), f.sender, p));
    }
}

fn note_four(noted: &mut Noted, t: &Words, f: FourPlace)
    requires { noted.old.count + 4 ≤ 1432 }
    ensures { (noted_keys noted.new ≡ noted_keys noted.old ++ held_keys (held_in (four_at_word t.now f))) × (noted.new.count ≤ noted.old.count + 4) }
{
    for j in 0..4 {
        note_place(noted, t, f, j);
    }
}

// Notes the key of a call's request; a call that the node did not make has none.
fn note_request(noted: &mut Noted, c: CallHead)
    requires { noted.old.count < 1432 }
    ensures { (noted_keys noted.new ≡ noted_keys noted.old ++ element_if (eqb c.made 1) (request_key c.endpoint c.sender c.epoch c.identifier)) × (noted.new.count ≤ noted.old.count + 1) }
{
    if c.made == 1 {
        noted.note(request_key(c));
    }
}

// Here and below, whoever asks says why the slot is one of the table's.
fn note_call(noted: &mut Noted, t: &Words, i: usize)
    requires { (noted.old.count + 7 ≤ 1432) × (i < slots) }
    ensures { (noted_keys noted.new ≡ noted_keys noted.old ++ call_keys (call_at (table_of t.now) i)) × (noted.new.count ≤ noted.old.count + 7) }
{
    let c = call_head(t, i);
    noted.note(short_key(c));
    noted.note(long_key(c, t, i));
    note_request(noted, c);
    note_four(noted, t, call_four(t, i));
}

// Notes the keys of a slot's call; a free slot has none.
fn note_slot(noted: &mut Noted, t: &Words, i: usize)
    requires { (noted.old.count + 7 ≤ 1432) × (i < slots) }
    ensures { (noted_keys noted.new ≡ noted_keys noted.old ++ list_if (is_used (table_of t.now).occupied i) (call_keys (call_at (table_of t.now) i))) × (noted.new.count ≤ noted.old.count + 7) }
{
    if is_used(t, i) {
        note_call(noted, t, i);
    }
}

// The same of a roster record: an unused one has none.
fn note_record(noted: &mut Noted, t: &Words, listed: usize, k: usize)
    requires { (noted.old.count + 4 ≤ 1432) × (k < 8) }
    ensures { (noted_keys noted.new ≡ noted_keys noted.old ++ list_if (ltb k listed) (held_keys (held_in (customer_four (customer_at (table_of t.now) k))))) × (noted.new.count ≤ noted.old.count + 4) }
{
    if k < listed {
        note_four(noted, t, customer_four(t, k));
    }
}

// Whether no two keys of the table are equal. It also says no where finding out takes too many steps.
pub fn keys_apart(t: &Words) -> bool
    ensures { result ≡ true → no_two eqb (keys_of (table_of t.now)) ≡ true }
{
    let mut noted = Noted {
        heads: [0; CHAINS],
        links: [0; ROOM],
        keys: [0; ROOM],
        count: 0,
        left: STEPS,
    };
    for i in 0..used_below(t) {
        note_slot(&mut noted, t, i);
    }
    let listed = listed(t);
    for k in 0..8 {
        note_record(&mut noted, t, listed, k);
    }
    noted.left != 0
}
