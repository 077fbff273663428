// The neighbour table: a state by value with its array inside, of the family that its caller names. Here are the types;
// the calls are total, and what they answer is a definition of specs/.
//
// row.rt         one row
// validity.rt    the tests of a whole table, and what every call asks first
// hearing.rt     a table without neighbours; hearing and forgetting
// election.rt    whether packing is allowed; the election over the rows and our own router
// list.rt        the election over a lent list of rows
#![tactic(auto)]

mod election;
mod hearing;
mod list;
mod row;
mod validity;

use format::{Address, Refusal};
pub use list::{elect_among, elect_rows};
pub use row::is_allowed;
pub use validity::is_valid;

// How many rows a table has.
pub const ROWS: usize = 64;

// A neighbour: the priority is 0 where none was announced.
#[repr(C)]
#[derive(Clone, Copy)]
pub struct Neighbour {
    pub address: Address,
    pub priority: u32,
    pub has_priority: bool,
    pub packs: bool,
    pub holdtime: u16,
}

// The rows in use come first; the others are all 0.
#[repr(C)]
#[derive(Clone, Copy)]
pub struct Table {
    pub rows: [Neighbour; ROWS],
    pub count: usize,
}

// What hearing or forgetting did.
#[derive(Clone, Copy)]
pub enum Change {
    Replaced,
    Appended,
    Forgotten,
}

// The table, changed or as it was, with what was done. It is there in either case, so it stands beside the answer.
#[derive(Clone, Copy)]
pub struct Changed {
    pub table: Table,
    pub change: Result<Change, Refusal>,
}
