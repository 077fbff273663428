// The first pass of a reading call: a body is checked to its end and its entries are counted, and nothing is written.
// Every public call is total; what it answers is a definition of the crate format, with its entries counted.
//
// aggregated.rt     aggregated records
// whole.rt          assert records and pairs that are there whole
// entries.rt        the bodies of messages
#![tactic(auto)]

mod aggregated;
mod entries;
mod whole;

pub use aggregated::Counted;
pub use entries::{count_asserts, count_pairs};
