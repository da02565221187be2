// The layout of the table: an array of 32-bit words that the caller lends. A call takes 32 words, a place for a
// connection 4. Nothing but table_words uses the places.

// Kept: slots, roster records and places of a four are numbers, here and in the crates above, with a bound in each
// contract. A type of slots would have to wrap each number of each loop, and the check finds the bound in one step.
//
// How many slots for calls the table has, whatever form its roster is of. How many calls all customers may have together
// is `total_for` of the form.
pub const SLOTS: usize = 200;

// How many customers a roster can list, and how many connections stand under a call, or with a customer.
pub const CUSTOMERS: usize = 8;

pub const PLACES: usize = 4;

// The head. The occupancy has eight words, the lower slots' first: two of them are one of 64 slots.
pub const ADDRESS: usize = 0;

pub const EPOCH: usize = 1;

pub const NEXT: usize = 2;

pub const TIME: usize = 3;

pub const LISTED: usize = 4;

pub const FORM: usize = 5;

pub const OCCUPIED: usize = 6;

// A customer: its terms, its last MESSAGE_ID, then an end point for each of its places, then the places.
pub const FIRST_CUSTOMER: usize = 14;

pub const CUSTOMER_WORDS: usize = 26;

pub const GUARANTEE: usize = 1;

pub const LIMIT: usize = 2;

pub const KEPT: usize = 3;

pub const LAST_EPOCH: usize = 4;

pub const LAST_IDENTIFIER: usize = 5;

pub const ENDPOINTS: usize = 6;

pub const CUSTOMER_FOUR: usize = 10;

// A call: its numbers, the 8 words of its name, its places.
pub const FIRST_CALL: usize = 222;

pub const CALL_WORDS: usize = 32;

pub const SENDER: usize = 1;

pub const REFRESHED: usize = 2;

pub const CALL_EPOCH: usize = 3;

pub const IDENTIFIER: usize = 4;

pub const CALL_ID: usize = 5;

pub const MADE: usize = 6;

pub const SIZE: usize = 7;

pub const NAME: usize = 8;

pub const NAME_WORDS: usize = 8;

pub const CALL_FOUR: usize = 16;

// A place.
pub const PLACE_WORDS: usize = 4;

pub const TUNNEL: usize = 1;

pub const EXTENDED: usize = 2;

pub const LSP: usize = 3;

// All of it.
pub const WORDS: usize = 6622;

pub type Words = [u32; WORDS];
