// What comes of one message: it is accepted, of a kind and with so many records, or refused. The records are counted and
// not copied, so no room is needed for them.
ghost use Rattle.std.specs.Prelude.{◌≡◌};
ghost use Rattle.format.specs.Outcome.{gives};
ghost use Rattle.format.specs.Path.{nowhere};
ghost use Rattle.format.specs.Family.{ipv4};
ghost use Rattle.format.specs.Header.{header as header_of};
ghost use Rattle.hello.specs.Answers.{checked};
ghost use Rattle.counting.specs.Counts.{counted};
ghost use Rattle.reporting.specs.Judging.{judged, judged_as};
ghost use Rattle.reporting.specs.Answers.{judged_by, count_of, heard_of};

use counting::{count_asserts, count_pairs};
use format::{Kind, Refusal, nowhere};
use headers::header;
use hello::check_options;

// The kind of a message that is accepted, and its records. A Hello has none.
#[derive(Clone, Copy)]
pub(crate) struct Accepted {
    pub kind: Kind,
    pub records: usize,
}

// A message of the kind that its header names.
fn judged_as(kind: Kind, m: &[u8]) -> Result<Accepted, Refusal>
    ensures { header_of ipv4 nowhere m.now ≡ gives kind → judged_by result ≡ judged_as kind m.now }
{
    let records = match kind {
        Kind::Hello => {
            check_options(m)?;
            0
        }
        Kind::Assert | Kind::Simple | Kind::Aggregated => count_asserts(false, kind, m)?.entries,
        Kind::NullRegister | Kind::RegisterStop => count_pairs(false, kind, m)?.entries,
    };
    Ok(Accepted { kind, records })
}

pub(crate) fn judged(m: &[u8]) -> Result<Accepted, Refusal>
    ensures { judged_by result ≡ judged m.now }
{
    let kind = header(false, nowhere(), m)?;
    judged_as(kind, m)
}
