// A customer's terms, and its last MESSAGE_ID. Whoever asks says why the record is one of the eight.
// Kept: numbers with a bound in each contract (table::layout says why).
ghost use Rattle.std.specs.Prelude.{◌≡◌, ◌<◌};
ghost use Rattle.table.specs.Lists.{customer_at};
ghost use Rattle.table.specs.Rules.{customer_clear};
ghost use Rattle.table.specs.Stores.{with_customer, with_terms, with_last};
ghost use Rattle.table.specs.Words.{table_of};
ghost use Rattle.table_words.specs.Heads.{customer_head_of, last_words_of};

use crate::words::{word, zero_words};
use objects::fields::MessageId;
use table::layout::{
    CUSTOMER_WORDS, FIRST_CUSTOMER, GUARANTEE, KEPT, LAST_EPOCH, LAST_IDENTIFIER, LIMIT, Words,
};

// Guarantee and limit are any words, until the rules are known to hold.
#[derive(Clone, Copy)]
pub struct CustomerHead {
    pub address: u32,
    pub guarantee: usize,
    pub limit: usize,
}

pub fn customer_head(t: &Words, k: usize) -> CustomerHead
    requires { k < 8 }
    ensures { (result ≡ customer_head_of (customer_at (table_of t.now) k)) × (result.guarantee < 4294967296) × (result.limit < 4294967296) }
{
    let b = FIRST_CUSTOMER + CUSTOMER_WORDS * k;
    CustomerHead {
        address: t[b],
        guarantee: word(t, b, GUARANTEE) as usize,
        limit: word(t, b, LIMIT) as usize,
    }
}

pub fn put_terms(t: &mut Words, k: usize, address: u32, guarantee: u32, limit: u32)
    requires { k < 8 }
    ensures { table_of t.new ≡ with_customer (table_of t.old) k (with_terms (customer_at (table_of t.old) k) address guarantee limit) }
{
    let b = FIRST_CUSTOMER + CUSTOMER_WORDS * k;
    t[b] = address;
    t[b + GUARANTEE] = guarantee;
    t[b + LIMIT] = limit;
}

// The last MESSAGE_ID that was accepted in a customer's Notify, and whether there is one (02, A8): any words, until the
// rules are known to hold.
// Kept: a mark and its values, and no Option: these are the words that the C interface lends, and a mark may be any number.
#[derive(Clone, Copy)]
pub struct LastWords {
    pub kept: u32,
    pub epoch: u32,
    pub identifier: u32,
}

pub fn last_words(t: &Words, k: usize) -> LastWords
    requires { k < 8 }
    ensures { result ≡ last_words_of (customer_at (table_of t.now) k) }
{
    let b = FIRST_CUSTOMER + CUSTOMER_WORDS * k;
    LastWords {
        kept: word(t, b, KEPT),
        epoch: word(t, b, LAST_EPOCH),
        identifier: word(t, b, LAST_IDENTIFIER),
    }
}

pub fn put_last(t: &mut Words, k: usize, id: MessageId)
    requires { k < 8 }
    ensures { table_of t.new ≡ with_customer (table_of t.old) k (with_last (customer_at (table_of t.old) k) id) }
{
    let b = FIRST_CUSTOMER + CUSTOMER_WORDS * k;
    t[b + KEPT] = 1;
    t[b + LAST_EPOCH] = id.epoch;
    t[b + LAST_IDENTIFIER] = id.identifier;
}

// An unused roster record: all of its words are zero.
pub fn customer_clear(t: &Words, k: usize) -> bool
    requires { k < 8 }
    ensures { result ≡ customer_clear (customer_at (table_of t.now) k) }
{
    zero_words(t, FIRST_CUSTOMER + CUSTOMER_WORDS * k, CUSTOMER_WORDS)
}
