// Pop-Count attributes of RFC 6807: reading one at a place of lent octets, and comparing two link speeds.
// Both calls are total; what they answer is a definition of specs/. Merging and writing are in `popcount`.
//
// speed.rt       link speeds compared
// options.rt     the options: their bits, how many octets each has, and their values
// read.rt        an attribute: what follows its length, the whole
#![tactic(auto)]

mod options;
mod read;
mod speed;

pub use options::{
    DIAMETER, DOMAIN, MAXIMUM_SPEED, MINIMUM_SPEED, NODE, STUB, TIME_ZONE, TRANSIT, Values,
    size_in, sizes,
};
pub use read::{Attribute, AttributeRead, read_attribute};
pub use speed::compare_speeds;
