// The stored sheet: reading one, of any form, into two lent entry buffers and a table, and writing one in the newest form of its family. Checking is in
// `sections`.
//
// copy.rt        octets of one slice copied into another, and entries with their front
// put.rt         a header and rows, written into a lent buffer
// read.rt        reading a sheet
// write.rt       writing a sheet
#![tactic(auto)]

mod copy;
mod put;
mod read;
mod write;

use format::Refusal;
use neighbours::Table;
pub use read::read_sheet;
pub use sections::{Counts, check_sheet};
pub use write::write_sheet;

// The table that a sheet holds, with what was found; a table without neighbours where the call refuses.
#[derive(Clone, Copy)]
pub struct SheetRead {
    pub table: Table,
    pub found: Result<Counts, Refusal>,
}
