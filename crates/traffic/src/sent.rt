// Messages packed to be sent, each counted with the entries it took; a refusal and the end of the list are no message. Then a count
// that is refused, and one that stays at its maximum.
use crate::lend::counted;
use counters::{Counters, Direction};
use format::{AddressFamily, Kind, Refusal, nowhere};
use packing::Packing;
use printing::{packed, title};

// What a packing call answered: a message is counted.
fn send(
    out: &impl Print,
    err: &impl Print,
    c: Counters,
    name: &[u8],
    kind: Kind,
    answer: Result<Packing, Refusal>,
) -> Counters {
    title(out, name);
    match answer {
        Ok(Packing { length, taken }) => {
            packed(out, length, taken);
            if length == 0 {
                return c;
            }
            counted(out, err, c, Direction::Sent, u8::from(kind), taken as u64)
        }
        Err(r) => {
            listing::refused(out, err, r);
            c
        }
    }
}

// 01, example 4: three R=0 entries with one source and metric; at limit 49 the first message takes two of them.
fn asserts(out: &impl Print, err: &impl Print, start: Counters) -> Counters {
    let e =
        b"\x01\x00\x00\x00\xe8\x01\x01\x01\x0a\x00\x00\x01\x00\x00\x00\x6e\x00\x00\x00\x14\x01\x00\x00\x00\xe8\x01\x01\x02\x0a\x00\x00\x01\x00\x00\x00\x6e\x00\x00\x00\x14\x01\x00\x00\x00\xe8\x01\x01\x03\x0a\x00\x00\x01\x00\x00\x00\x6e\x00\x00\x00\x14";
    let mut d = [0; 1480];
    let simple = packing::pack_simple(AddressFamily::Ipv4, nowhere(), e, 0, 0, &mut d);
    let c = send(out, err, start, b"send simple", Kind::Simple, simple);
    let first = packing::pack_aggregated(AddressFamily::Ipv4, nowhere(), e, 0, 49, &mut d);
    let f = send(out, err, c, b"send aggregated", Kind::Aggregated, first);
    let rest = packing::pack_aggregated(AddressFamily::Ipv4, nowhere(), e, 2, 49, &mut d);
    let g = send(out, err, f, b"send the rest", Kind::Aggregated, rest);
    let end = packing::pack_aggregated(AddressFamily::Ipv4, nowhere(), e, 3, 49, &mut d);
    send(out, err, g, b"send at the end", Kind::Aggregated, end)
}

// Two pairs, the second with source 0, which no Null-Register message may carry.
fn pairs(out: &impl Print, err: &impl Print, start: Counters) -> Counters {
    let e =
        b"\x01\x00\x00\x00\xe9\x41\x42\x43\x0a\x44\x45\x46\x01\x00\x00\x00\xea\x51\x52\x53\x00\x00\x00\x00";
    let mut d = [0; 1480];
    let stops = packing::pack_register_stop(AddressFamily::Ipv4, nowhere(), e, 0, 0, &mut d);
    let c = send(
        out,
        err,
        start,
        b"send register-stop",
        Kind::RegisterStop,
        stops,
    );
    let nulls = packing::pack_null_register(AddressFamily::Ipv4, nowhere(), e, 0, 0, &mut d);
    send(
        out,
        err,
        c,
        b"send null-register",
        Kind::NullRegister,
        nulls,
    )
}

// A kind that is none of the six; then so many records that the next one would pass the 64-bit maximum.
fn counts(out: &impl Print, err: &impl Print, start: Counters) -> Counters {
    let kind = u8::from(Kind::Assert);
    title(out, b"count kind 6");
    let c = counted(out, err, start, Direction::Sent, 6, 1);
    title(out, b"count past the maximum");
    let most = counted(out, err, c, Direction::Sent, kind, 0xffff_ffff_ffff_ffff);
    counted(out, err, most, Direction::Sent, kind, 1)
}

pub(crate) fn run(out: &impl Print, err: &impl Print, start: Counters) -> Counters {
    let c = asserts(out, err, start);
    let d = pairs(out, err, c);
    counts(out, err, d)
}
