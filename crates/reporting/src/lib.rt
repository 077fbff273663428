// The report of a file of messages: how many were accepted, by kind, with how many records; how many were refused, by
// number; the mean of records over packed messages; and whether the file is whole. Of a file that is lent, or message by
// message, or in pieces of any size. No call refuses; what each answers is a definition of specs/.
//
// judge.rt      what comes of one message
// counts.rt     the counts: a state by value that takes one message at a time
// means.rt      the mean, in lowest terms
// file.rt       the messages of a file
#![tactic(auto)]

mod counts;
mod file;
mod judge;
mod means;

use counters::ByKind;
pub use counts::{none, with_message};
pub use file::{report_of, with_octets};
pub use means::mean;

// How many numbers there are to refuse by, with 0, by which nothing is refused.
pub const NUMBERS: usize = 15;

// What came of messages: those accepted with their records, by kind, and those refused, by number.
#[repr(C)]
#[derive(Clone, Copy)]
pub struct Tally {
    pub accepted: ByKind,
    pub refused: [u64; NUMBERS],
}

// The counts after some octets, and how many of the octets the messages in them took.
#[repr(C)]
#[derive(Clone, Copy)]
pub struct Taken {
    pub tally: Tally,
    pub used: usize,
}

#[repr(C)]
#[derive(Clone, Copy)]
pub struct Fraction {
    pub numerator: u64,
    pub denominator: u64,
}

#[repr(C)]
#[derive(Clone, Copy)]
pub struct Report {
    pub tally: Tally,
    pub mean: Fraction,
    pub whole: bool,
}
