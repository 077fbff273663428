// Counters by value, lent to `count`: a local copy is lent for the call, and handed back as the call left it.
ghost use Rattle.std.specs.Prelude.{◌≡◌};
ghost use Rattle.counters.specs.Counting.{counting, answer_of};

use crate::calls::count;
use crate::{Counters, CountersAfter, Direction};
use format::Refusal;

// The answer and the counters as one value.
fn both(answer: Result<(), Refusal>, counters: Counters) -> CountersAfter
    ensures { result ≡ record { answer = answer; counters = counters } }
{
    CountersAfter { answer, counters }
}

// For a caller that has its counters by value: they are lent to `count` for the call, and come back as it left them.
pub fn counted(c: Counters, direction: Direction, kind: u8, records: u64) -> CountersAfter
    ensures answer { answer_of result.answer ≡ (counting c direction kind records).answer }
    ensures counters { result.counters ≡ (counting c direction kind records).counters }
{
    let mut lent = c;
    let answer = count(&mut lent, direction, kind, records);
    both(answer, lent)
}
