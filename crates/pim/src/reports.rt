// The report of a file of messages: of a lent file, message by message, and in pieces.
ghost use Rattle.std.specs.Prelude.{◌≡◌};
ghost use Rattle.reporting.specs.Tallies.{no_tally, tallied};
ghost use Rattle.reporting.specs.Fraction.{mean_of};
ghost use Rattle.reporting.specs.Report.{taken_from, report_of};

use reporting::{Fraction, Report, Taken, Tally};

// Counts of no message.
#[unsafe(no_mangle)]
pub extern "C" fn pim_tally_none() -> Tally
    ensures { result ≡ no_tally }
{
    reporting::none()
}

// One message more.
#[unsafe(no_mangle)]
pub extern "C" fn pim_tally_message(tally: Tally, m: &[u8]) -> Tally
    ensures { result ≡ tallied tally m.now }
{
    reporting::with_message(tally, m)
}

// The messages more that stand whole in octets.
#[unsafe(no_mangle)]
pub extern "C" fn pim_tally_octets(tally: Tally, o: &[u8]) -> Taken
    ensures { result ≡ taken_from tally o.now }
{
    reporting::with_octets(tally, o)
}

// The mean of records over packed messages.
#[unsafe(no_mangle)]
pub extern "C" fn pim_tally_mean(tally: Tally) -> Fraction
    ensures { result ≡ mean_of tally }
{
    reporting::mean(tally)
}

// The report of a lent file.
#[unsafe(no_mangle)]
pub extern "C" fn pim_report(file: &[u8]) -> Report
    ensures { result ≡ report_of file.now }
{
    reporting::report_of(file)
}
