// Where a four of connections stands, within the words. It has a file of its own: what its ghost fields cite may not name it.
ghost use Rattle.std.specs.Prelude.{◌+◌, ◌≤◌};
ghost use Rattle.table.specs.Words.{word_count};

use crate::calls::CallWord;

// The Call ID and the sender of all its connections, the place of the end point, which is one for all or one for each, and
// of the first of the four.
#[derive(Clone, Copy)]
pub struct FourPlace {
    pub call: CallWord,
    pub sender: u32,
    pub endpoint: usize,
    pub each: bool,
    pub places: usize,
    pub ghost endpoint_inside: { endpoint + 4 ≤ word_count },
    pub ghost places_inside: { places + 16 ≤ word_count },
}
