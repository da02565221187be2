// The connections of one customer, in columns: one for each number by which they are told apart.
ghost use Rattle.std.specs.Prelude.{◌≤◌};

use table::layout::Words;
use table_words::fours::{FourPlace, endpoint_at, place_words};

// Room for all connections of the table: four for each of 200 slots, and four for each of 8 customers.
pub const ROWS: usize = 832;

// Kept: arrays side by side and no array of rows, so that a loop over them compares several connections at a time. It is
// made in one place and lent: nothing of its size is copied.
#[derive(Drop)]
pub struct Columns {
    pub endpoints: [u32; ROWS],
    pub tunnels: [u32; ROWS],
    pub extended: [u32; ROWS],
    pub lsps: [u32; ROWS],
    // How many rows there are.
    pub count: usize,
    pub ghost within: { count ≤ 832 },
}

impl Columns {
    ghost use Rattle.std.specs.Prelude.{◌≡◌, ◌++◌, ℕ, ◌+◌, ◌<◌};
    ghost use Rattle.lists.specs.Count.{has, no_two};
    ghost use Rattle.table.specs.Lists.{held_place, held_in};
    ghost use Rattle.table.specs.Rules.{same_lsp};
    ghost use Rattle.table_words.specs.Fours.{four_at_word};
    ghost use Rattle.rule_connections.specs.Rows.{lsps_of};
    ghost use Rattle.rule_connections.specs.Columns.{row_in, first_rows, rows_in};

    // A place's connection in a row more, where the place is taken.
    fn put_place(&mut self, t: &Words, f: FourPlace, j: usize)
        requires { (self.old.count < 832) × (j < 4) }
        ensures { (rows_in f.sender self.new ≡ rows_in f.sender self.old ++ lsps_of (held_place (four_at_word t.now f) j)) × (self.new.count ≤ self.old.count + 1) }
    {
        let p = place_words(t, f, j);
        if p.taken == 1 {
            let n = self.count;
            self.endpoints[n] = endpoint_at(t, f, j);
            self.tunnels[n] = p.tunnel.0;
            self.extended[n] = p.extended;
            self.lsps[n] = p.lsp.0;
            self.count = n + 1;
        }
    }

    // The same for all four places. There is room: no more than all connections of the table are put.
    pub fn put_four(&mut self, t: &Words, f: FourPlace)
        requires { self.old.count + 4 ≤ 832 }
        ensures { (rows_in f.sender self.new ≡ rows_in f.sender self.old ++ lsps_of (held_in (four_at_word t.now f))) × (self.new.count ≤ self.old.count + 4) }
    {
        for j in 0..4 {
            self.put_place(t, f, j);
        }
    }

    // Row i is one of those before it, whosever they all are. No early exit: then the compiler compares several at a time.
    fn is_repeated(&self, i: usize) -> bool
        requires { i < self.now.count }
        ensures { (sender : ℕ) → result ≡ has (λ x. same_lsp x (row_in sender self.now i)) (first_rows sender self.now i) }
    {
        let e = self.endpoints[i];
        let u = self.tunnels[i];
        let x = self.extended[i];
        let l = self.lsps[i];
        let mut found = false;
        for j in 0..i {
            found |= (self.endpoints[j] == e)
                & (self.tunnels[j] == u)
                & (self.extended[j] == x)
                & (self.lsps[j] == l);
        }
        found
    }

    // No two rows are the same.
    pub fn is_once(&self) -> bool
        ensures { (sender : ℕ) → result ≡ no_two same_lsp (rows_in sender self.now) }
    {
        let mut found = false;
        for i in 0..self.count {
            found |= self.is_repeated(i);
        }
        !found
    }
}
