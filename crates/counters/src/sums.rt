// Sums that stay at the 64-bit maximum, added to the totals of one direction and kind.
ghost use Rattle.std.specs.Prelude.{◌≡◌, true};
ghost use Rattle.format.specs.Values.{kind_number};
ghost use Rattle.counters.specs.Counting.{more_if, more_at, more_in};

use crate::{ByKind, Counters, Direction, Totals};
use format::Kind;

// One message more, and its records.
#[tactic(auto, unfolding(crate::specs::Counting::sum, crate::specs::Counting::more_if))]
fn with_message(t: Totals, records: u64) -> Totals
    ensures { result ≡ more_if true records t }
{
    Totals {
        messages: t.messages.saturating_add(1),
        records: t.records.saturating_add(records),
    }
}

// The totals with those of one kind changed.
#[tactic(auto, unfolding(crate::specs::Counting::more_if, crate::specs::Counting::more_at))]
fn added_at(t: ByKind, kind: Kind, records: u64) -> ByKind
    ensures { result ≡ more_at (kind_number kind) records t }
{
    match kind {
        Kind::Hello => ByKind {
            hello: with_message(t.hello, records),
            ..t
        },
        Kind::Assert => ByKind {
            assert: with_message(t.assert, records),
            ..t
        },
        Kind::Simple => ByKind {
            simple: with_message(t.simple, records),
            ..t
        },
        Kind::Aggregated => ByKind {
            aggregated: with_message(t.aggregated, records),
            ..t
        },
        Kind::NullRegister => ByKind {
            null_register: with_message(t.null_register, records),
            ..t
        },
        Kind::RegisterStop => ByKind {
            register_stop: with_message(t.register_stop, records),
            ..t
        },
    }
}

// The counters with those of one direction and kind changed.
#[tactic(auto, unfolding(crate::specs::Counting::more_in))]
pub(crate) fn added_in(c: Counters, direction: Direction, kind: Kind, records: u64) -> Counters
    ensures { result ≡ more_in c direction (kind_number kind) records }
{
    match direction {
        Direction::Sent => Counters {
            sent: added_at(c.sent, kind, records),
            ..c
        },
        Direction::Received => Counters {
            received: added_at(c.received, kind, records),
            ..c
        },
    }
}
