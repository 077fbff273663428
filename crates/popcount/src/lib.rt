// Merging the Pop-Count attributes from downstream with our own values, into one attribute in a lent buffer.
// The public call is total; what it answers is a definition of specs/. Reading and speeds are the crate attributes'.
//
// rules.rt       the rules for two numbers
// tally.rt       one pass over the contributors, which keeps a tally by value
// write.rt       an attribute, written
// merging.rt     the call
#![tactic(auto)]

mod merging;
mod rules;
mod tally;
mod write;

pub use attributes::{
    Attribute, AttributeRead, DIAMETER, DOMAIN, MAXIMUM_SPEED, MINIMUM_SPEED, NODE, STUB,
    TIME_ZONE, TRANSIT, Values, compare_speeds, read_attribute,
};
pub use merging::merge;
pub use tally::Own;
