// Keys noted one after another, in chains. Equal keys are of one chain.
ghost use Rattle.std.specs.Prelude.{◌≡◌, true, ◌<◌, eqb, take};
ghost use Rattle.lists.specs.Count.{no_two};
ghost use Rattle.rule_keys.specs.Chains.{Chained};

pub const CHAINS: usize = 2048;

// Room for seven keys of each of 200 slots and four of each of eight customers.
pub const ROOM: usize = 1432;

// `heads[m]` is the number, counted from 1, of the last key noted in chain m, and `links[i]` that of the key before key i
// in its chain; 0 where there is none. It is made in one place and lent: nothing of its size is copied.
#[derive(Drop)]
pub struct Noted {
    pub heads: [u16; CHAINS],
    pub links: [u16; ROOM],
    pub keys: [u32; ROOM],
    // How many keys are noted, and how many steps back through chains are left.
    pub count: usize,
    pub left: usize,
    pub ghost chained: { Chained heads links keys count },
    pub ghost apart: { 0 < left → no_two eqb (take count keys) ≡ true },
}

impl Noted {
    ghost use Rattle.std.specs.Prelude.{[], ◌∷◌, ◌++◌, ℕ, ◌+◌, ◌≤◌, get_or};
    ghost use Rattle.rule_keys.specs.Chains.{chain_of, last_in};
    ghost use Rattle.rule_keys.specs.Noted.{noted_keys};

    // Looks for a key in its chain, from key number `first` back to the first one. It says how many steps are left: none
    // where the key was met, or where there were too few.
    fn walk(&self, first: usize, key: u32) -> usize
        requires { (first ≤ self.now.count) × (self.now.count < 1432) × (first ≡ last_in self.now.keys (chain_of key) first) }
        ensures { (result ≤ self.now.left) × (0 < result → (i : ℕ) → i < first → get_or self.now.keys i 0 ≡ key → ⊥) }
    {
        let mut left = self.left;
        let mut e = first;
        while (e != 0) & (left != 0) {
            if self.keys[e - 1] == key {
                return 0;
            }
            left -= 1;
            e = usize::from(self.links[e - 1]);
        }
        left
    }

    // Notes a key. There is room for it: whoever asks says why.
    pub fn note(&mut self, key: u32)
        requires { self.old.count < 1432 }
        ensures { (noted_keys self.new ≡ noted_keys self.old ++ key ∷ []) × (self.new.count ≡ self.old.count + 1) }
    {
        let n = self.count;
        let m = (key >> 21) as usize;
        let first = self.heads[m];
        let left = self.walk(usize::from(first), key);
        self.heads[m] = (n + 1) as u16;
        self.links[n] = first;
        self.keys[n] = key;
        self.count = n + 1;
        self.left = left;
    }
}
