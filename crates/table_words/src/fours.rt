// The fours of connections: a call's, and a customer's of Call ID 0, by where they stand.
// Kept: numbers with a bound in each contract (table::layout says why).
ghost use Rattle.std.specs.Prelude.{◌≡◌, ◌<◌};
ghost use Rattle.table.specs.Total.{slots};
ghost use Rattle.table.specs.Zeros.{no_place};
ghost use Rattle.table.specs.Lists.{call_at, customer_at, call_four, customer_four, place_at};
ghost use Rattle.table.specs.Stores.{with_slot, with_customer, with_place, with_standalone_place};
ghost use Rattle.table.specs.Words.{table_of};
ghost use Rattle.table_words.specs.Fours.{four_at_word, place_of_words, Alike};

use crate::calls::CallWord;
pub use crate::four_place::FourPlace;
use crate::words::word;
use objects::fields::{LspId, TunnelId};
use table::layout::{
    CALL_FOUR, CALL_ID, CALL_WORDS, CUSTOMER_FOUR, CUSTOMER_WORDS, ENDPOINTS, EXTENDED, FIRST_CALL,
    FIRST_CUSTOMER, LSP, PLACE_WORDS, SENDER, TUNNEL, Words,
};

// A table's words for a Tunnel ID and an LSP ID: any numbers, until the rules are known to hold.
#[derive(Clone, Copy, PartialEq, Eq)]
pub struct TunnelWord(pub u32);

#[derive(Clone, Copy, PartialEq, Eq)]
pub struct LspWord(pub u32);

// Kept: a mark and its values, and no Option: these are the words that the C interface lends, and a mark may be any number.
#[derive(Clone, Copy)]
pub struct PlaceWords {
    pub taken: u32,
    pub tunnel: TunnelWord,
    pub extended: u32,
    pub lsp: LspWord,
}

pub fn call_four(t: &Words, i: usize) -> FourPlace
    requires { i < slots }
    ensures { Alike (four_at_word t.now result) (call_four (call_at (table_of t.now) i)) }
{
    let b = FIRST_CALL + CALL_WORDS * i;
    FourPlace {
        call: CallWord(word(t, b, CALL_ID)),
        sender: word(t, b, SENDER),
        endpoint: b,
        each: false,
        places: b + CALL_FOUR,
    }
}

pub fn customer_four(t: &Words, k: usize) -> FourPlace
    requires { k < 8 }
    ensures { Alike (four_at_word t.now result) (customer_four (customer_at (table_of t.now) k)) }
{
    let b = FIRST_CUSTOMER + CUSTOMER_WORDS * k;
    FourPlace {
        call: CallWord(0),
        sender: word(t, b, 0),
        endpoint: b + ENDPOINTS,
        each: true,
        places: b + CUSTOMER_FOUR,
    }
}

pub fn place_words(t: &Words, f: FourPlace, j: usize) -> PlaceWords
    requires { j < 4 }
    ensures { place_of_words result ≡ place_at (four_at_word t.now f) j }
{
    let b = f.places + PLACE_WORDS * j;
    PlaceWords {
        taken: t[b],
        tunnel: TunnelWord(word(t, b, TUNNEL)),
        extended: word(t, b, EXTENDED),
        lsp: LspWord(word(t, b, LSP)),
    }
}

pub fn endpoint_at(t: &Words, f: FourPlace, j: usize) -> u32
    requires { j < 4 }
    ensures { result ≡ (four_at_word t.now f).endpoint j }
{
    word(t, f.endpoint, if f.each { j } else { 0 })
}

// A place with a connection in it.
pub fn taken_place(tunnel: TunnelId, extended: u32, lsp: LspId) -> PlaceWords
    ensures { place_of_words result ≡ record { taken = 1; tunnel = tunnel.0; extended = extended; lsp = lsp.0 } }
{
    PlaceWords {
        taken: 1,
        tunnel: TunnelWord(tunnel.0 as u32),
        extended,
        lsp: LspWord(lsp.0 as u32),
    }
}

pub fn no_place() -> PlaceWords
    ensures { place_of_words result ≡ no_place }
{
    PlaceWords {
        taken: 0,
        tunnel: TunnelWord(0),
        extended: 0,
        lsp: LspWord(0),
    }
}

// A place in a call's four stored.
pub fn put_call_place(t: &mut Words, i: usize, j: usize, p: PlaceWords)
    requires { (i < slots) × (j < 4) }
    ensures { table_of t.new ≡ with_slot (table_of t.old) (table_of t.old).occupied i (with_place (call_at (table_of t.old) i) j (place_of_words p)) }
{
    let b = FIRST_CALL + CALL_WORDS * i + CALL_FOUR + PLACE_WORDS * j;
    t[b] = p.taken;
    t[b + TUNNEL] = p.tunnel.0;
    t[b + EXTENDED] = p.extended;
    t[b + LSP] = p.lsp.0;
}

// A place in a customer's four stored, and its end point.
pub fn put_customer_place(t: &mut Words, k: usize, j: usize, endpoint: u32, p: PlaceWords)
    requires { (k < 8) × (j < 4) }
    ensures { table_of t.new ≡ with_customer (table_of t.old) k (with_standalone_place (customer_at (table_of t.old) k) j endpoint (place_of_words p)) }
{
    let e = FIRST_CUSTOMER + CUSTOMER_WORDS * k + ENDPOINTS + j;
    t[e] = endpoint;
    let b = FIRST_CUSTOMER + CUSTOMER_WORDS * k + CUSTOMER_FOUR + PLACE_WORDS * j;
    t[b] = p.taken;
    t[b + TUNNEL] = p.tunnel.0;
    t[b + EXTENDED] = p.extended;
    t[b + LSP] = p.lsp.0;
}
