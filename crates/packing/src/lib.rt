// The packing calls: plain asserts, packed simple and aggregated asserts, null-registers and register-stops, and the
// choice between the two packed assert forms. Every public call is total; what it answers and what it writes is a
// definition of the crate format. The functions inside go by the path and by the family: a bool, and a const parameter
// where they write in a loop.
//
// run.rt         where a run of entries ends
// record.rt      records of one length
// aggregate.rt   aggregated records, each of one run
// within.rt      the most aggregated records within a limit
// message.rt     how messages are laid out by their kind, and what stands before their records
// most.rt        the most entries that fit, and their message
// limit.rt       what a call refuses, in the order 9, 8, 10, 7
// calls.rt       the five calls
// choice.rt      both packed assert forms, and the one that is chosen
#![tactic(auto)]

mod aggregate;
mod calls;
mod choice;
mod limit;
mod message;
mod most;
mod record;
mod run;
mod within;

pub use calls::{
    Packing, pack_aggregated, pack_assert, pack_null_register, pack_register_stop, pack_simple,
};
pub use choice::{Choice, pack_both, pack_chosen};
