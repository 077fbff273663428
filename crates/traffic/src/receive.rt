// A message received: its body is handed back as a part of it, its header is read, the records of the body are read singly, one
// after another, and its reading call counts them. A Hello and an aggregated message have no record that is read singly.
use crate::lend::counted;
use counters::{Counters, Direction};
use format::{AddressFamily, Kind, Refusal, nowhere};
use printing::{named, number, text, title};

// The records of a body from a place on, each listed, and how many they are; places count in the body.
fn singly(
    out: &impl Print,
    err: &impl Print,
    kind: Kind,
    body: &[u8],
    from: usize,
) -> Result<usize, Refusal> {
    let mut at = from;
    let mut n = 0;
    // No `for` is plainer: a record says where the next one stands.
    while at < body.len() {
        let single = reading::read_record(AddressFamily::Ipv4, kind, body, at)?;
        n += 1;
        listing::record(out, err, AddressFamily::Ipv4, n, single.record);
        at = single.next;
    }
    Ok(n)
}

// A Hello has no records.
fn hello(m: &[u8]) -> Result<usize, Refusal> {
    hello::read_hello(AddressFamily::Ipv4, nowhere(), m)?;
    Ok(0)
}

// Room for 64 entries of 20 octets, which is enough here; so for pairs, of 12.
fn asserts(m: &[u8]) -> Result<usize, Refusal> {
    let mut entries = [0; 1280];
    let read = reading::read_asserts(AddressFamily::Ipv4, nowhere(), m, &mut entries)?;
    Ok(read.count)
}

fn pairs(m: &[u8]) -> Result<usize, Refusal> {
    let mut entries = [0; 768];
    let read = reading::read_pairs(AddressFamily::Ipv4, nowhere(), m, &mut entries)?;
    Ok(read.count)
}

// How many records a message holds. Single reading sees neither Zero nor that no record is there; the reading call sees both.
// In a simple message Zero and Reserved stand before the records.
fn records_of(
    out: &impl Print,
    err: &impl Print,
    kind: Kind,
    m: &[u8],
    body: &[u8],
) -> Result<usize, Refusal> {
    match kind {
        Kind::Hello => hello(m),
        Kind::Assert => {
            singly(out, err, kind, body, 0)?;
            asserts(m)
        }
        Kind::Simple => {
            singly(out, err, kind, body, 4)?;
            asserts(m)
        }
        Kind::Aggregated => asserts(m),
        Kind::NullRegister | Kind::RegisterStop => {
            singly(out, err, kind, body, 0)?;
            pairs(m)
        }
    }
}

// A message of a kind, with its body: refused, or counted.
fn unpacked(
    out: &impl Print,
    err: &impl Print,
    c: Counters,
    kind: Kind,
    m: &[u8],
    body: &[u8],
) -> Counters {
    match records_of(out, err, kind, m, body) {
        Ok(n) => {
            named(out, b"records ", n as u64);
            counted(out, err, c, Direction::Received, u8::from(kind), n as u64)
        }
        Err(r) => {
            listing::refused(out, err, r);
            c
        }
    }
}

// A named message: what it holds is listed, and it is counted unless it is refused. Where the header refuses, the body is an empty part.
pub(crate) fn receive(
    out: &impl Print,
    err: &impl Print,
    c: Counters,
    name: &[u8],
    m: &[u8],
) -> Counters {
    title(out, name);
    let body = reading::body(AddressFamily::Ipv4, nowhere(), m);
    number(out, b"body of ", body.len() as u64);
    text(out, b" octets\n");
    match reading::header(AddressFamily::Ipv4, nowhere(), m) {
        Ok(kind) => unpacked(out, err, c, kind, m, body),
        Err(r) => {
            listing::refused(out, err, r);
            c
        }
    }
}
