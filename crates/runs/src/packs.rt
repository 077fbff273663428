// Entries packed: what the call answers, then the listing of the message it wrote. The entries are those of
// the packed messages of kinds.rt, so the listings are the same.
use format::{AddressFamily, Refusal, nowhere};
use packing::Packing;
use printing::{front, packed, title};

// The message stands at the front of what was lent.
fn show_packed(
    out: &impl Print,
    err: &impl Print,
    name: &[u8],
    answer: Result<Packing, Refusal>,
    d: &[u8],
) {
    title(out, name);
    match answer {
        Ok(p) => {
            packed(out, p.length, p.taken);
            if 0 < p.length {
                listing::list(out, err, front(d, p.length));
            }
        }
        Err(r) => listing::refused(out, err, r),
    }
}

// Two entries, with R=0 and with R=1.
fn asserts(out: &impl Print, err: &impl Print) {
    let e =
        b"\x01\x00\x00\x00\xe4\x01\x02\x03\x0a\x04\x05\x06\x07\x08\x09\x0a\x0b\x0c\x0d\x0e\x01\x00\x00\x00\xe5\x11\x12\x13\x00\x00\x00\x00\x97\x18\x19\x1a\x1b\x1c\x1d\x1e";
    let mut d = [0; 1480];
    let whole = packing::pack_simple(AddressFamily::Ipv4, nowhere(), e, 0, 0, &mut d);
    show_packed(out, err, b"packed: two asserts, usual limit", whole, &d);
    let one = packing::pack_simple(AddressFamily::Ipv4, nowhere(), e, 0, 51, &mut d);
    show_packed(out, err, b"packed: two asserts, limit 51", one, &d);
    let two = packing::pack_simple(AddressFamily::Ipv4, nowhere(), e, 0, 52, &mut d);
    show_packed(out, err, b"packed: two asserts, limit 52", two, &d);
    let plain = packing::pack_assert(AddressFamily::Ipv4, nowhere(), e, 1, 0, &mut d);
    show_packed(
        out,
        err,
        b"packed: a plain assert, from the second",
        plain,
        &d,
    );
    let end = packing::pack_assert(AddressFamily::Ipv4, nowhere(), e, 2, 0, &mut d);
    show_packed(out, err, b"packed: a plain assert, from the end", end, &d);
    let past = packing::pack_assert(AddressFamily::Ipv4, nowhere(), e, 3, 0, &mut d);
    show_packed(
        out,
        err,
        b"packed: a plain assert, from past the end",
        past,
        &d,
    );
}

// Two pairs, the second with source 0.
fn pairs(out: &impl Print, err: &impl Print) {
    let e =
        b"\x01\x00\x00\x00\xe9\x41\x42\x43\x0a\x44\x45\x46\x01\x00\x00\x00\xea\x51\x52\x53\x00\x00\x00\x00";
    let mut d = [0; 1480];
    let stops = packing::pack_register_stop(AddressFamily::Ipv4, nowhere(), e, 0, 0, &mut d);
    show_packed(out, err, b"packed: two Register-Stops", stops, &d);
    let nulls = packing::pack_null_register(AddressFamily::Ipv4, nowhere(), e, 0, 0, &mut d);
    show_packed(
        out,
        err,
        b"packed: two Null-Registers, the second with source 0",
        nulls,
        &d,
    );
    let short = packing::pack_register_stop(AddressFamily::Ipv4, nowhere(), e, 0, 1481, &mut d);
    show_packed(out, err, b"packed: a limit past the buffer", short, &d);
    let low = packing::pack_register_stop(AddressFamily::Ipv4, nowhere(), e, 0, 37, &mut d);
    show_packed(out, err, b"packed: limit 37", low, &d);
}

// Two asserts, the second with R=1 from 224.0.0.1; two pairs, the second from 255.255.255.255.
fn sources(out: &impl Print, err: &impl Print) {
    let a =
        b"\x01\x00\x00\x00\xe4\x01\x02\x03\x0a\x04\x05\x06\x07\x08\x09\x0a\x0b\x0c\x0d\x0e\x01\x00\x00\x00\xe5\x11\x12\x13\xe0\x00\x00\x01\x97\x18\x19\x1a\x1b\x1c\x1d\x1e";
    let mut d = [0; 1480];
    let first = packing::pack_aggregated(AddressFamily::Ipv4, nowhere(), a, 0, 38, &mut d);
    show_packed(
        out,
        err,
        b"packed: two asserts, the second from 224.0.0.1",
        first,
        &d,
    );
    let p =
        b"\x01\x00\x00\x00\xe9\x41\x42\x43\x0a\x44\x45\x46\x01\x00\x00\x00\xea\x51\x52\x53\xff\xff\xff\xff";
    let stops = packing::pack_register_stop(AddressFamily::Ipv4, nowhere(), p, 1, 0, &mut d);
    show_packed(
        out,
        err,
        b"packed: two Register-Stops, from the second, which is from 255.255.255.255",
        stops,
        &d,
    );
}

// 7: an entry that begins with another family, or with an octet that is not 0.
fn fronts(out: &impl Print, err: &impl Print) {
    let family =
        b"\x01\x00\x00\x00\xe9\x41\x42\x43\x0a\x44\x45\x46\x02\x00\x00\x00\xea\x51\x52\x53\x0a\x54\x55\x56";
    let mut d = [0; 1480];
    let other = packing::pack_register_stop(AddressFamily::Ipv4, nowhere(), family, 0, 0, &mut d);
    show_packed(
        out,
        err,
        b"packed: two Register-Stops, the second entry of family 2",
        other,
        &d,
    );
    let octets = b"\x01\x00\x01\x00\xe9\x41\x42\x43\x0a\x44\x45\x46";
    let set = packing::pack_null_register(AddressFamily::Ipv4, nowhere(), octets, 0, 0, &mut d);
    show_packed(
        out,
        err,
        b"packed: a Null-Register, an octet set after the family",
        set,
        &d,
    );
}

pub(crate) fn run(out: &impl Print, err: &impl Print) {
    asserts(out, err);
    pairs(out, err);
    sources(out, err);
    fronts(out, err);
}
