// The messages of a file, each preceded by its length in 16 bits. A message counts once all of its octets are there.
ghost use Rattle.std.specs.Prelude.{◌≡◌};
ghost use Rattle.reporting.specs.Report.{taken_from, report_of};

use crate::counts::{count_refused, none, with_accepted};
use crate::judge::judged;
use crate::means::mean;
use crate::{NUMBERS, Report, Taken, Tally};
use counters::ByKind;
use octets::number;

// The two parts of a tally as one again, and how many octets were taken.
fn taken(accepted: ByKind, refused: [u64; NUMBERS], used: usize) -> Taken
    ensures { result ≡ record { tally = record { accepted = accepted; refused = refused }; used = used } }
{
    let tally = Tally { accepted, refused };
    Taken { tally, used }
}

// The counts with the messages that stand whole from the first octet on, and how many octets these take. Those of accepted
// and of refused messages are kept apart, so that a message changes and copies one of them alone.
pub fn with_octets(t: Tally, o: &[u8]) -> Taken
    ensures { result ≡ taken_from t o.now }
{
    let mut accepted = t.accepted;
    let mut refused = t.refused;
    let mut at = 0;
    // The step is a message's own length, so this is no `for`.
    while 2 <= o.len() - at {
        let n = number::<u16>(o, at) as usize;
        if o.len() - at - 2 < n {
            return taken(accepted, refused, at);
        }
        match judged(&o[at + 2..at + 2 + n]) {
            Ok(a) => accepted = with_accepted(accepted, a.kind, a.records as u64),
            Err(refusal) => count_refused(&mut refused, u8::from(refusal.reason)),
        }
        at = at + 2 + n;
    }
    taken(accepted, refused, at)
}

// The report of a file that is lent.
pub fn report_of(file: &[u8]) -> Report
    ensures { result ≡ report_of file.now }
{
    let all = with_octets(none(), file);
    let tally = all.tally;
    Report {
        tally,
        mean: mean(tally),
        whole: all.used == file.len(),
    }
}
