// Parts of handling a message by themselves, for benchmark and comparison: reading, the rule check, and the sum of the words
// so far. Its static library stands beside chaffmoor's; the node does not use it.
#![tactic(auto)]

ghost use Rattle.std.specs.Prelude.{◌≡◌};
ghost use Rattle.table.specs.Rules.{rules_hold};
ghost use Rattle.table.specs.Words.{table_of};
ghost use Rattle.messages.specs.Read.{read_of};
ghost use Rattle.bench_parts.specs.Number.{read_number};
ghost use Rattle.bench_parts.specs.Sum.{part_sum};

use messages::read::{Received, Refusal, read};
use numbers::checksum::first_words_sum;
use rules::rules_hold;
use table::layout::Words;

// The fault of form that the bytes alone show, 0 where there is none.
// Kept: a number, and 0 for none: C reads it.
fn read_number(r: Result<Received, Refusal>) -> u8
    ensures { result ≡ read_number r }
{
    match r {
        Err(Refusal::Misformed { fault, .. }) => u8::from(fault),
        Err(Refusal::Unfit { fault, .. }) => u8::from(fault),
        Ok(_) => 0,
    }
}

#[unsafe(no_mangle)]
pub extern "C" fn chaffmoor_part_read(message: &[u8]) -> u8
    ensures { result ≡ read_number (read_of message.now) }
{
    read_number(read(message))
}

// The sum of the first words of any bytes; 0 where they have fewer, or are longer than any message.
#[unsafe(no_mangle)]
pub extern "C" fn chaffmoor_part_sum(bytes: &[u8], words: usize) -> u16
    ensures { result ≡ part_sum bytes.now words }
{
    let most = bytes.len();
    if most > 65535 {
        return 0;
    }
    if words > most / 2 {
        return 0;
    }
    first_words_sum(bytes, words)
}

#[unsafe(no_mangle)]
pub extern "C" fn chaffmoor_part_rules(table: &Words) -> bool
    ensures { result ≡ rules_hold (table_of table.now) }
{
    rules_hold(table)
}
