// Counters of messages and records, sent and received by kind. The kind comes as a number in 01's order, so that one
// that is none of the six can be refused. What a call answers and what the counters then hold is a definition of specs/.
//
// start.rt       counters to begin with
// sums.rt        the totals of one direction and kind, with a message more
// calls.rt       by value: the answer, and the counters after it; on counters that are lent: a thin function over it
// lend.rt        counters by value, lent to `count` for the call
#![tactic(auto)]

mod calls;
mod lend;
mod start;
mod sums;

pub use calls::{added, count};
use format::Refusal;
pub use lend::counted;
pub use start::none;

// How many messages, and how many records they had.
#[repr(C)]
#[derive(Clone, Copy)]
pub struct Totals {
    pub messages: u64,
    pub records: u64,
}

// The totals of each kind, in 01's order.
#[repr(C)]
#[derive(Clone, Copy)]
pub struct ByKind {
    pub hello: Totals,
    pub assert: Totals,
    pub simple: Totals,
    pub aggregated: Totals,
    pub null_register: Totals,
    pub register_stop: Totals,
}

// All counters: one record.
#[repr(C)]
#[derive(Clone, Copy)]
pub struct Counters {
    pub sent: ByKind,
    pub received: ByKind,
}

#[derive(Clone, Copy)]
pub enum Direction {
    Sent,
    Received,
}

// What a call did, and the counters after it.
#[derive(Clone, Copy)]
pub struct CountersAfter {
    pub answer: Result<(), Refusal>,
    pub counters: Counters,
}
