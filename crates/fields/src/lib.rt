// Fields and records of a message at any place: whether they are there and allowed, where they end, and the numbers
// that they hold. Every public call is total; what it answers is a definition of the crate format.
//
// field.rt      fields: whether they are there and allowed, and where they end
// record.rt     assert records and pairs; a record read singly
#![tactic(auto)]

mod field;
mod record;

pub use field::{
    address_size, group_check, is_address, is_group, is_source, octets_check, source_check,
};
pub use record::{Single, assert_check, pair_check, read_record};
