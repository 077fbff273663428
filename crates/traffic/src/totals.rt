// The counters printed: messages and records by direction and kind.
use counters::{ByKind, Counters, Totals};
use printing::{named, number, text, title};

// A kind, its messages and their records.
fn line(out: &impl Print, kind: &[u8], t: Totals) {
    text(out, kind);
    number(out, b" messages ", t.messages);
    named(out, b" records ", t.records);
}

fn lines(out: &impl Print, direction: &[u8], t: ByKind) {
    title(out, direction);
    line(out, b"hello", t.hello);
    line(out, b"assert", t.assert);
    line(out, b"simple", t.simple);
    line(out, b"aggregated", t.aggregated);
    line(out, b"null-register", t.null_register);
    line(out, b"register-stop", t.register_stop);
}

pub(crate) fn print(out: &impl Print, c: Counters) {
    lines(out, b"received", c.received);
    lines(out, b"sent", c.sent);
}
