// The calls: by value, and on counters that are lent.
ghost use Rattle.std.specs.Prelude.{◌≡◌};
ghost use Rattle.counters.specs.Counting.{counting, answer_of};

use crate::sums::added_in;
use crate::{Counters, CountersAfter, Direction};
use format::{Kind, Reason, Refusal};

// Adds one message and its records to the totals of a direction and a kind, by value.
pub fn added(c: Counters, direction: Direction, kind: u8, records: u64) -> CountersAfter
    ensures answer { answer_of result.answer ≡ (counting c direction kind records).answer }
    ensures counters { result.counters ≡ (counting c direction kind records).counters }
{
    let Ok(kind) = Kind::try_from(kind) else {
        return CountersAfter {
            answer: Err(Reason::BadKind.at(0)),
            counters: c,
        };
    };
    CountersAfter {
        answer: Ok(()),
        counters: added_in(c, direction, kind, records),
    }
}

// Adds one message and its records to counters that are lent, and changed there.
pub fn count(c: &mut Counters, direction: Direction, kind: u8, records: u64) -> Result<(), Refusal>
    ensures answer { answer_of result ≡ (counting c.old direction kind records).answer }
    ensures counters { c.new ≡ (counting c.old direction kind records).counters }
{
    let r = added(*c, direction, kind, records);
    *c = r.counters;
    r.answer
}
