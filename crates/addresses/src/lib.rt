// Addresses of both families: which octets each family has, an address as a number in two halves, and its octets copied.
// Code names the family by a bool, `ipv6`. Every public call is total; what it answers is a definition of the crate
// format.
//
// family.rt      what tells the two families apart, as numbers
// address.rt     an address: read at a place, compared, copied
// source.rt      whether a source may have an address
// pseudo.rt      what is summed before a message: in IPv6 RFC 8200's pseudo-header
#![tactic(auto)]

mod address;
mod family;
mod pseudo;
mod source;

pub use address::{address_at, copy_address, is_below, is_in_family, is_same, is_zero, is_zero_at};
pub use family::{family_number, front_size, is_multicast, least_limit, mask_length, width};
pub use pseudo::sum_before;
pub use source::{begins_source, may_be_source};
