// Reading messages: the header and the body, a record read singly, and the reading calls for asserts and
// for pairs. Every public call is total; what it answers is a definition of the crate format.
// The checks are in the crates headers, fields and counting; here is what is written.
//
// message.rt     the header and the body
// copy.rt        second pass: entries written by plain indices
// entries.rt     the reading calls: everything is checked and counted before the first entry is written
#![tactic(auto)]

mod copy;
mod entries;
mod message;

pub use entries::{Reading, read_asserts, read_pairs};
pub use fields::{Single, read_record};
pub use message::{body, header};
