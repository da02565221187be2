// The connections that the table holds, in cells, each by the record of the checkpoint that it came from. There are 2,048
// places, and cells behind the last one: 832 connections find room wherever they begin.
ghost use Rattle.std.specs.Prelude.{◌≡◌, List, ℕ, ◌<◌, ◌≤◌, get_or};
ghost use Rattle.lists.specs.Count.{count_if};
ghost use Rattle.table.specs.Lists.{Held};
ghost use Rattle.table.specs.Rules.{is_lsp};
ghost use Rattle.spec_calls.specs.PathRules.{lsp_of, held_by};
ghost use Rattle.spec_checkpoint.specs.Layout.{connections_in};
ghost use Rattle.checkpoint_connections.specs.Cells.{is_filled, lsp_place, HeldInCells, SoughtIn};

use checkpoint_chains::{Factors, spread};
use checkpoint_records::checkpoint::Checkpoint;
use messages::message::{Connection, Lsp};
use table_words::fours::{LspWord, TunnelWord};
use table_words::ids::{is_lsp, is_tunnel};

pub type HeldCells = [u16; 3072];

// The place of a connection, whatever Call ID it stands under.
fn lsp_place(f: Factors, x: Lsp) -> usize
    ensures { (result ≡ lsp_place f (lsp_of x)) × (result < 2048) }
{
    let ids = u32::from(x.tunnel.0) * 65536 + u32::from(x.lsp.0);
    spread(f, x.endpoint, x.sender, ids, x.extended)
}

// A record is of this connection.
#[tactic(auto, unfolding(table::specs::Rules::same_lsp))]
fn is_of(y: Connection, x: Lsp) -> bool
    ensures { result ≡ is_lsp (lsp_of x) (held_by y) }
{
    let pair = (x.endpoint == y.lsp.endpoint) & (x.sender == y.lsp.sender);
    let tunnel = is_tunnel(x.tunnel, TunnelWord(u32::from(y.lsp.tunnel.0)));
    let extended = x.extended == y.lsp.extended;
    let lsp = is_lsp(x.lsp, LspWord(u32::from(y.lsp.lsp.0)));
    pair & tunnel & extended & lsp
}

// Looks for a connection in the cells from its place on: the first free one, and none where it is held. Each filled cell
// has a record's number, and at most 832 are filled: whoever asks has filled them.
pub fn seek(c: Checkpoint, f: Factors, cells: &HeldCells, x: Lsp) -> Option<usize>
    requires { (count_if is_filled cells.now ≤ 832) × ((j : ℕ) → get_or cells.now j 0 ≤ connections_in c.bytes.now) }
    ensures { (l : List Held) → HeldInCells f c.entry.bytes.now l cells.now → SoughtIn f l cells.now (lsp_of x) result }
{
    let place = lsp_place(f, x);
    for j in place..3072 {
        if cells[j] == 0 {
            return Some(j);
        }
        if is_of(c.connection(usize::from(cells[j]) - 1), x) {
            return None;
        }
    }
    unreachable!()
}
