// The exact way to see that no connection is held twice: customer by customer, all pairs of its connections are compared.
// Connections of two senders are never the same, and every sender is a customer.
#![tactic(auto)]

ghost use Rattle.std.specs.Prelude.{◌≡◌, ◌++◌, true, not, ◌||◌, ◌+◌, ◌≤◌, ◌<◌, ltb};
ghost use Rattle.lists.specs.Count.{no_two};
ghost use Rattle.table.specs.Total.{slots};
ghost use Rattle.table.specs.Rules.{same_connection, roster_holds, holds, senders_listed, connections_once};
ghost use Rattle.table.specs.Words.{table_of};
ghost use Rattle.rule_connections.specs.Own.{own_at, own};
ghost use Rattle.rule_connections.specs.Rows.{lsps_of};
ghost use Rattle.rule_connections.specs.Columns.{rows_in};

use crate::columns::{Columns, ROWS};
use occupancy::{is_used, used_below};
use table::layout::Words;
use table_words::fours::{call_four, customer_four};
use table_words::head::listed;

mod columns;

// A slot's connections in rows more, where its call is from a sender.
fn put_call(columns: &mut Columns, t: &Words, i: usize, sender: u32)
    requires { (columns.old.count + 4 ≤ 832) × (i < slots) }
    ensures { (rows_in sender columns.new ≡ rows_in sender columns.old ++ lsps_of (own_at (table_of t.now) sender i)) × (columns.new.count ≤ columns.old.count + 4) }
{
    let f = call_four(t, i);
    if is_used(t, i) & (f.sender == sender) {
        columns.put_four(t, f);
    }
}

// No connection of customer k is held twice.
fn customer_once(t: &Words, k: usize) -> bool
    requires { k < 8 }
    ensures { result ≡ no_two same_connection (own (table_of t.now) k) }
{
    let mut columns = Columns {
        endpoints: [0; ROWS],
        tunnels: [0; ROWS],
        extended: [0; ROWS],
        lsps: [0; ROWS],
        count: 0,
    };
    let g = customer_four(t, k);
    for i in 0..used_below(t) {
        put_call(&mut columns, t, i, g.sender);
    }
    columns.put_four(t, g);
    columns.is_once()
}

// The same of a roster record: an unused one has no connections.
fn record_once(t: &Words, listed: usize, k: usize) -> bool
    requires { k < 8 }
    ensures { result ≡ (not (ltb k listed) || no_two same_connection (own (table_of t.now) k)) }
{
    if k < listed {
        return customer_once(t, k);
    }
    true
}

// No connection is held twice. That the roster is acceptable and every sender listed is tested before.
#[tactic(auto, using(lists::proofs::Below::every_none, lists::proofs::Below::every_turn))]
pub fn connections_once(t: &Words) -> bool
    requires { (roster_holds (table_of t.now) ≡ true) × (holds senders_listed (table_of t.now) ≡ true) }
    ensures { result ≡ holds connections_once (table_of t.now) }
{
    let listed = listed(t);
    let mut once = true;
    for k in 0..8 {
        once &= record_once(t, listed, k);
    }
    once
}
