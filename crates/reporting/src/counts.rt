// The counts of messages: a state by value that takes one message at a time. Accepted messages are counted on the counters
// of received messages, which are lent for it.
ghost use Rattle.std.specs.Prelude.{◌≡◌};
ghost use Rattle.format.specs.Values.{kind_number};
ghost use Rattle.counters.specs.Counting.{none_by_kind, more_at};
ghost use Rattle.reporting.specs.Tallies.{no_tally, once_more, tallied};

use crate::judge::judged;
use crate::{NUMBERS, Tally};
use counters::{ByKind, Counters, Direction};
use format::Kind;

// Counts of no message.
pub fn none() -> Tally
    ensures { result ≡ no_tally }
{
    let nothing = counters::none();
    let accepted = nothing.received;
    Tally {
        accepted,
        refused: [0; NUMBERS],
    }
}

// Counters of received messages; nothing is sent.
fn received(accepted: ByKind) -> Counters
    ensures { result ≡ record { sent = none_by_kind; received = accepted } }
{
    let nothing = counters::none();
    let sent = nothing.sent;
    Counters {
        sent,
        received: accepted,
    }
}

// One accepted message more of a kind, and its records.
pub(crate) fn with_accepted(accepted: ByKind, kind: Kind, records: u64) -> ByKind
    ensures { result ≡ more_at (kind_number kind) records accepted }
{
    let c = received(accepted);
    let after = counters::counted(c, Direction::Received, u8::from(kind), records);
    let all = after.counters;
    all.received
}

// One message more that was refused by a number.
pub(crate) fn count_refused(refused: &mut [u64], number: u8)
    ensures { refused.new ≡ once_more number refused.old }
{
    let n = number as usize;
    if n < refused.len() {
        refused[n] = refused[n].saturating_add(1);
    }
}

// The counts with one message more, accepted or refused.
pub fn with_message(t: Tally, m: &[u8]) -> Tally
    ensures { result ≡ tallied t m.now }
{
    let mut accepted = t.accepted;
    let mut refused = t.refused;
    match judged(m) {
        Ok(a) => accepted = with_accepted(accepted, a.kind, a.records as u64),
        Err(refusal) => count_refused(&mut refused, u8::from(refusal.reason)),
    }
    Tally { accepted, refused }
}
