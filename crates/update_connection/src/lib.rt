// The changes that an answer makes to the connections of the table: added and removed, under a call or with a customer.
// None of them is given a Call ID.
#![tactic(auto)]

ghost use Rattle.std.specs.Prelude.{◌≡◌, true, ◌<◌};
ghost use Rattle.lists.specs.Count.{has};
ghost use Rattle.table.specs.Total.{slots};
ghost use Rattle.table.specs.Lists.{customer_at, roster, call_at, call_four, customer_four, held_in};
ghost use Rattle.table.specs.Share.{is_listed};
ghost use Rattle.table.specs.Rules.{is_lsp};
ghost use Rattle.table.specs.Words.{table_of};
ghost use Rattle.table_words.specs.Fours.{four_at_word, place_of_words};
ghost use Rattle.spec_changes.specs.Connections.{place_for, added_under, added_standalone, place_with, removed_under, removed_standalone, customer_of};
ghost use Rattle.spec_calls.specs.PathRules.{lsp_of};

use find_call::share::listing_of;
use find_connection::four::holds_at;
use fours::free_place;
use messages::message::Lsp;
use table::layout::{PLACES, Words};
use table_words::fours::{
    FourPlace, PlaceWords, call_four, customer_four, no_place, put_call_place, put_customer_place,
    taken_place,
};

// The roster's record of an address that is listed.
pub fn customer_of(t: &Words, address: u32) -> usize
    requires { is_listed (roster (table_of t.now)) address ≡ true }
    ensures { (result ≡ customer_of (table_of t.now) address) × (result < 8) }
{
    listing_of(t, address).unwrap().place
}

// The place of a four that holds a connection, 0 where none does.
fn place_with(t: &Words, f: FourPlace, x: Lsp) -> usize
    ensures { (result ≡ place_with (four_at_word t.now f) (lsp_of x)) × (result < 4) }
{
    (0..PLACES).find(|j| holds_at(t, f, *j, x)).unwrap_or(0)
}

fn place_for(x: Lsp) -> PlaceWords
    ensures { place_of_words result ≡ place_for (lsp_of x) }
{
    taken_place(x.tunnel, x.extended, x.lsp)
}

// Kept: two functions to add and two to remove, since a call's place and a customer's are written by different stores: the
// customer's has an end point of its own (`added_standalone`). What they share are `free_place`, `place_with` and `place_for`.

// Into the lowest free place of a slot's call. A slot is one of the table's. Its four is not full: place 0 of a full one
// would be overwritten.
pub fn add_under(t: &mut Words, slot: usize, x: Lsp)
    requires { slot < slots }
    ensures { table_of t.new ≡ added_under (table_of t.old) slot (lsp_of x) }
{
    let j = free_place(t, call_four(t, slot));
    put_call_place(t, slot, j, place_for(x));
}

// Out of its place in a slot's call, which holds it, and zeros into that place.
pub fn remove_under(t: &mut Words, slot: usize, x: Lsp)
    requires { (slot < slots) × (has (is_lsp (lsp_of x)) (held_in (call_four (call_at (table_of t.old) slot))) ≡ true) }
    ensures { table_of t.new ≡ removed_under (table_of t.old) slot (lsp_of x) }
{
    let j = place_with(t, call_four(t, slot), x);
    put_call_place(t, slot, j, no_place());
}

// Into the lowest free place of a customer, under the same condition. A roster has eight records.
pub fn add_standalone(t: &mut Words, k: usize, x: Lsp)
    requires { k < 8 }
    ensures { table_of t.new ≡ added_standalone (table_of t.old) k (lsp_of x) }
{
    let j = free_place(t, customer_four(t, k));
    put_customer_place(t, k, j, x.endpoint, place_for(x));
}

// Out of its place with a customer, which holds it, and zeros into that place and its end point.
pub fn remove_standalone(t: &mut Words, k: usize, x: Lsp)
    requires { (k < 8) × (has (is_lsp (lsp_of x)) (held_in (customer_four (customer_at (table_of t.old) k))) ≡ true) }
    ensures { table_of t.new ≡ removed_standalone (table_of t.old) k (lsp_of x) }
{
    let j = place_with(t, customer_four(t, k), x);
    put_customer_place(t, k, j, 0, no_place());
}
