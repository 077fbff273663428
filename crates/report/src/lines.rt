// The report printed, one space between the parts of a line.
use counters::{ByKind, Totals};
use printing::{named, number, text, title, told};
use reporting::{Fraction, NUMBERS, Tally};

// A kind, its messages and their records.
fn kind(out: &impl Print, name: &[u8], t: Totals) -> bool {
    text(out, name) && number(out, b" ", t.messages) && named(out, b" ", t.records)
}

// The kinds in 01's order.
fn kinds(out: &impl Print, t: ByKind) -> bool {
    kind(out, b"hello", t.hello)
        && kind(out, b"assert", t.assert)
        && kind(out, b"simple", t.simple)
        && kind(out, b"aggregated", t.aggregated)
        && kind(out, b"null-register", t.null_register)
        && kind(out, b"register-stop", t.register_stop)
}

// The numbers from 1 on.
fn numbers(out: &impl Print, refused: [u64; NUMBERS]) -> bool {
    (1..NUMBERS).all(|n| number(out, b"refused ", n as u64) && named(out, b" ", refused[n]))
}

fn mean(out: &impl Print, f: Fraction) -> bool {
    number(out, b"mean ", f.numerator) && named(out, b"/", f.denominator)
}

fn ending(out: &impl Print, whole: bool) -> bool {
    if whole {
        return title(out, b"whole");
    }
    title(out, b"cut")
}

// All lines, up to the first that cannot be written.
pub(crate) fn print(out: &impl Print, err: &impl Print, t: Tally, whole: bool) {
    let written = kinds(out, t.accepted)
        && numbers(out, t.refused)
        && mean(out, reporting::mean(t))
        && ending(out, whole);
    told(err, written, b"the report was");
}
