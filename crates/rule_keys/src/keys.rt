// The keys of a call's IDs, of its request and of connections: the last 32 bits of sums that cannot overflow.
// Kept: numbers with a bound in each contract (table::layout says why).
ghost use Rattle.std.specs.Prelude.{◌≡◌, ◌<◌};
ghost use Rattle.table.specs.Total.{slots};
ghost use Rattle.table.specs.Lists.{call_at};
ghost use Rattle.table.specs.Words.{table_of};
ghost use Rattle.rule_keys.specs.Keys.{pair_sum, word_product, name_sum, short_key, long_key, request_key, lsp_key};

use table::layout::Words;
use table_words::calls::CallHead;
use table_words::fours::PlaceWords;
use table_words::names::name_word;

fn pair_sum(endpoint: u32, sender: u32) -> u64
    ensures { (result ≡ pair_sum endpoint sender) × (result < 2305843009213693952) }
{
    (endpoint as u64) * 199728483 + (sender as u64) * 179213453
}

pub fn short_key(c: CallHead) -> u32
    ensures { result ≡ short_key c.endpoint c.sender c.id.0 }
{
    ((pair_sum(c.endpoint, c.sender) + (c.id.0 as u64) * 203459603) % 4294967296) as u32
}

// Here and below, whoever asks says why the slot is one of the table's.
fn word_product(t: &Words, i: usize, k: usize, factor: u64) -> u64
    requires { (i < slots) × (k < 8) × (factor < 268435456) }
    ensures { (result ≡ word_product (call_at (table_of t.now) i).name k factor) × (result < 1152921504606846976) }
{
    (name_word(t, i, k) as u64) * factor
}

fn name_sum(t: &Words, i: usize) -> u64
    requires { i < slots }
    ensures { (result ≡ name_sum (call_at (table_of t.now) i).name) × (result < 9223372036854775808) }
{
    word_product(t, i, 0, 205589543)
        + word_product(t, i, 1, 206140127)
        + word_product(t, i, 2, 171278029)
        + word_product(t, i, 3, 150838921)
        + word_product(t, i, 4, 254509055)
        + word_product(t, i, 5, 240453881)
        + word_product(t, i, 6, 214057469)
        + word_product(t, i, 7, 267301875)
}

// Of the pair of a slot's call, and the slot's name.
pub fn long_key(c: CallHead, t: &Words, i: usize) -> u32
    requires { i < slots }
    ensures { result ≡ long_key c.endpoint c.sender (call_at (table_of t.now) i).name }
{
    ((pair_sum(c.endpoint, c.sender) + name_sum(t, i)) % 4294967296) as u32
}

pub fn request_key(c: CallHead) -> u32
    ensures { result ≡ request_key c.endpoint c.sender c.epoch c.identifier }
{
    let sum = pair_sum(c.endpoint, c.sender)
        + (c.epoch as u64) * 231711449
        + (c.identifier as u64) * 218959117;
    (sum % 4294967296) as u32
}

pub fn lsp_key(endpoint: u32, sender: u32, p: PlaceWords) -> u32
    ensures { result ≡ lsp_key (record { endpoint = endpoint; tunnel = p.tunnel.0; extended = p.extended; sender = sender; lsp_id = p.lsp.0 }) }
{
    let sum = pair_sum(endpoint, sender)
        + (p.tunnel.0 as u64) * 206379567
        + (p.extended as u64) * 189846391
        + (p.lsp.0 as u64) * 223631931;
    (sum % 4294967296) as u32
}
