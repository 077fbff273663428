// The choice between the two packed assert forms. Every case is put to both calls, each with buffers of its own: what
// `pack_both` answers, then the part that `pack_chosen` hands back.
ghost use Rattle.std.specs.Prelude.{◌≤◌};

use crate::call::path;
use crate::lists::{one, three, zeros};
use crate::output::{family_name, wrote};
use crate::rule::place;
use format::{AddressFamily, Refusal};
use packing::Choice;
use printing::{front, hexadecimal, named, number, refused, text};

fn form(out: &impl Print, aggregated: bool) -> bool {
    if aggregated {
        return text(out, b"aggregated, ");
    }
    text(out, b"simple, ")
}

fn answer(out: &impl Print, c: Result<Choice, Refusal>) -> bool {
    match c {
        Err(r) => refused(out, r, b"; "),
        Ok(c) => form(out, c.aggregated) && wrote(out, c.length, c.taken, b"; "),
    }
}

fn octet_1(out: &impl Print, x: u8) -> bool {
    named(out, b" octets, octet 1 is ", x as u64)
}

// The part that was handed back. Octet 1 is 1 in a simple message and 3 in an aggregated one.
fn part(out: &impl Print, m: &[u8]) -> bool {
    number(out, b"part of ", m.len() as u64);
    if m.len() < 2 {
        return text(out, b" octets\n");
    }
    octet_1(out, m[1])
}

// What `pack_both` answers, with s octets lent for the simple message and a for the aggregated one.
fn both(
    out: &impl Print,
    family: AddressFamily,
    e: &[u8],
    start: usize,
    limit: usize,
    s: usize,
    a: usize,
)
    requires { (s ≤ 1480) × (a ≤ 1480) }
{
    let mut simple = [0; 1480];
    let mut aggregated = [0; 1480];
    let c = packing::pack_both(
        family,
        path(),
        e,
        start,
        limit,
        &mut simple[..s],
        &mut aggregated[..a],
    );
    answer(out, c);
}

// What `pack_chosen` hands back, lent the same.
fn chosen(
    out: &impl Print,
    family: AddressFamily,
    e: &[u8],
    start: usize,
    limit: usize,
    s: usize,
    a: usize,
)
    requires { (s ≤ 1480) × (a ≤ 1480) }
{
    let mut simple = [0; 1480];
    let mut aggregated = [0; 1480];
    let m = packing::pack_chosen(
        family,
        path(),
        e,
        start,
        limit,
        &mut simple[..s],
        &mut aggregated[..a],
    );
    part(out, m);
}

// A case, and how much is lent.
fn lent(
    out: &impl Print,
    family: AddressFamily,
    name: &[u8],
    e: &[u8],
    start: usize,
    limit: usize,
    s: usize,
    a: usize,
)
    requires { (s ≤ 1480) × (a ≤ 1480) }
{
    family_name(out, family);
    text(out, name);
    both(out, family, e, start, limit, s, a);
    chosen(out, family, e, start, limit, s, a);
}

fn show(
    out: &impl Print,
    family: AddressFamily,
    name: &[u8],
    e: &[u8],
    start: usize,
    limit: usize,
) {
    lent(out, family, name, e, start, limit, 1480, 1480);
}

// Two R=0 entries that are joined, R=1 with a source, and R=1 with source 0 and another preference. After the first 8
// octets simple records have 22 each, aggregated ones 34, 30 and 24: 96 octets both ways.
fn four() -> [u8; 80] {
    let mut e = [0; 80];
    hexadecimal(
        b"\
01000000 e8010101 0a000001 0000006e 00000014 01000000 e8010102 0a000001 0000006e 00000014 \
01000000 e8010103 0a000001 8000006f 00000014 01000000 e8010104 00000000 80000070 00000014",
        &mut e,
    );
    e
}

// R=1 with a source, twice, with other preferences: 52 octets simple, and aggregated 68.
fn two() -> [u8; 40] {
    let mut e = [0; 40];
    hexadecimal(
        b"01000000 e8010101 0a000001 8000006e 00000014 01000000 e8010102 0a000001 8000006f 00000014",
        &mut e,
    );
    e
}

// R=1 and a source: 30 octets simple, 38 aggregated; in IPv6 54 and 62.
fn one_with_source(out: &impl Print, family: AddressFamily) {
    let room = one(family);
    let e = front(&room, place(family, 1));
    show(out, family, b"choice, one with R=1 and a source: ", e, 0, 0);
}

fn messages(out: &impl Print, three: &[u8]) {
    let family = AddressFamily::Ipv4;
    show(out, family, b"choice, three with one source: ", three, 0, 0);
    one_with_source(out, family);
    show(out, family, b"choice, three at limit 49: ", three, 0, 49);
    show(out, family, b"choice, two at limit 52: ", &two(), 0, 52);
    show(
        out,
        family,
        b"choice, equal number and length: ",
        &four(),
        0,
        0,
    );
    from_first(out, b"choice, limit 0 and 556 octets: ", three, 0, 556, 556);
}

// The first entries of a list in IPv4, and how much is lent.
fn from_first(out: &impl Print, name: &[u8], e: &[u8], limit: usize, s: usize, a: usize)
    requires { (s ≤ 1480) × (a ≤ 1480) }
{
    lent(out, AddressFamily::Ipv4, name, e, 0, limit, s, a);
}

// The part is empty.
fn no_message(out: &impl Print, three: &[u8]) {
    let family = AddressFamily::Ipv4;
    show(out, family, b"choice, end of the list: ", three, 3, 0);
    show(out, family, b"choice, start past the end: ", three, 4, 0);
    from_first(
        out,
        b"choice, simple buffer short: ",
        three,
        1480,
        1479,
        1480,
    );
    from_first(
        out,
        b"choice, aggregated buffer short: ",
        three,
        1480,
        1480,
        1479,
    );
    from_first(out, b"choice, limit 0, simple 555: ", three, 0, 555, 556);
    from_first(
        out,
        b"choice, limit 0, aggregated 555: ",
        three,
        0,
        556,
        555,
    );
}

// Three R=0 entries with one source and metric: 74 octets simple, 50 aggregated. At limit 49 one entry in 30 octets, or
// two in 42.
fn ipv4(out: &impl Print) {
    let room = three(AddressFamily::Ipv4);
    let e = front(&room, place(AddressFamily::Ipv4, 3));
    messages(out, e);
    no_message(out, e);
}

// The same in IPv6: 146 octets simple, 98 aggregated; at limit 97 one entry in 54 octets, or two in 78. Two with one group
// and source 0 are 100 octets simple, and 68 aggregated.
fn ipv6(out: &impl Print) {
    let family = AddressFamily::Ipv6;
    let room = three(family);
    let e = front(&room, place(family, 3));
    show(out, family, b"choice, three with one source: ", e, 0, 0);
    one_with_source(out, family);
    show(out, family, b"choice, three at limit 97: ", e, 0, 97);
    show(out, family, b"choice, three at limit 61: ", e, 0, 61);
    let none = zeros(family);
    show(
        out,
        family,
        b"choice, two with source 0: ",
        front(&none, place(family, 2)),
        0,
        0,
    );
}

pub(crate) fn run(out: &impl Print) {
    ipv4(out);
    ipv6(out);
}
