// A message counted by `counters::counted`, which lends the counters: what it refuses is said, and the counters go on.
ghost use Rattle.std.specs.Prelude.{◌≡◌};
ghost use Rattle.counters.specs.Counting.{counting};

use counters::{Counters, Direction};

// The counters with one message more and its records, or as they were where the kind is none of the six.
pub(crate) fn counted(
    out: &impl Print,
    err: &impl Print,
    c: Counters,
    direction: Direction,
    kind: u8,
    records: u64,
) -> Counters
    ensures { result ≡ (counting c direction kind records).counters }
{
    let after = counters::counted(c, direction, kind, records);
    if let Err(r) = after.answer {
        listing::refused(out, err, r);
    }
    after.counters
}
