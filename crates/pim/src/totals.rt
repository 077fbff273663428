// The counters of messages and records.
ghost use Rattle.std.specs.Prelude.{◌≡◌};
ghost use Rattle.counters.specs.Counting.{none_counted, counting, answer_of};
ghost use Rattle.pim.specs.Answers.{direction_of, refusal_of};

use crate::answers::{Refusal, accepted};
use counters::{Counters, Direction};

// Counters that have counted nothing.
#[unsafe(no_mangle)]
pub extern "C" fn pim_counters_none() -> Counters
    ensures { result ≡ none_counted }
{
    counters::none()
}

fn direction(received: bool) -> Direction
    ensures { result ≡ direction_of received }
{
    if received {
        return Direction::Received;
    }
    Direction::Sent
}

fn count_refusal(a: Result<(), format::Refusal>) -> Refusal
    ensures { result ≡ refusal_of (answer_of a) }
{
    match a {
        Ok(()) => accepted(),
        Err(r) => Refusal::from(r),
    }
}

// One message more, and its records, on counters that are lent and changed there.
#[unsafe(no_mangle)]
pub extern "C" fn pim_count(c: &mut Counters, received: bool, kind: u8, records: u64) -> Refusal
    ensures answer { result ≡ refusal_of (counting c.old (direction_of received) kind records).answer }
    ensures counters { c.new ≡ (counting c.old (direction_of received) kind records).counters }
{
    count_refusal(counters::count(c, direction(received), kind, records))
}
