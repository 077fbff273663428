// The examples that 01 marks for the packing calls, by their numbers there, and limit 0. Those of the aggregated form are
// tried in both families: in IPv6 the figures are those that 02 gives, or follow from its lengths.
ghost use Rattle.std.specs.Prelude.{◌≤◌};

use crate::call::{pack, path};
use crate::lists::{one, three, zeros};
use crate::output::{answer, family_name};
use crate::rule::place;
use format::{AddressFamily, Refusal};
use packing::Packing;
use printing::{front, named, number, text};

fn show(out: &impl Print, family: AddressFamily, name: &[u8], p: Result<Packing, Refusal>) {
    family_name(out, family);
    text(out, name);
    answer(out, p);
}

// The same, where the line ends in its limit.
fn show_limit(
    out: &impl Print,
    family: AddressFamily,
    name: &[u8],
    limit: usize,
    p: Result<Packing, Refusal>,
) {
    family_name(out, family);
    text(out, name);
    number(out, b", limit ", limit as u64);
    text(out, b": ");
    answer(out, p);
}

// "Limit 1,480, 67 simple entries left: 66 taken, 1,460 octets; 66 left: the same."
fn example_3(out: &impl Print, list: &[u8]) {
    let mut d = [0; 1480];
    let family = AddressFamily::Ipv4;
    let p = packing::pack_simple(family, path(), list, 957, 1480, &mut d);
    show(out, family, b"example 3, 67 left: ", p);
    let q = packing::pack_simple(family, path(), list, 958, 1480, &mut d);
    show(out, family, b"example 3, 66 left: ", q);
}

// "Limit 0 is to mean 556": the 67 entries of example 3, with as many octets lent, and with one less.
fn limit_0(out: &impl Print, list: &[u8]) {
    let family = AddressFamily::Ipv4;
    let mut enough = [0; 556];
    let p = packing::pack_simple(family, path(), list, 957, 0, &mut enough);
    show(out, family, b"limit 0, 67 left: ", p);
    let mut short = [0; 555];
    let q = packing::pack_simple(family, path(), list, 957, 0, &mut short);
    show(out, family, b"limit 0, 555 octets lent: ", q);
}

fn taken_by(p: Result<Packing, Refusal>) -> usize {
    match p {
        Ok(p) => p.taken,
        Err(_) => 0,
    }
}

// With no more octets lent than the limit.
fn exactly(family: AddressFamily, e: &[u8], start: usize, limit: usize) -> Result<Packing, Refusal>
    requires { limit ≤ 98 }
{
    let mut d = [0; 98];
    pack(family, e, start, limit, &mut d[..limit])
}

// "Three R=0 entries, one source and metric: 50 octets at limit 50; at 49, messages of 42 and 34." In IPv6 98 octets; 78
// and 58.
fn example_4(out: &impl Print, family: AddressFamily, limit: usize, less: usize)
    requires { (limit ≤ 98) × (less ≤ 98) }
{
    let room = three(family);
    let e = front(&room, place(family, 3));
    let whole = exactly(family, e, 0, limit);
    show_limit(out, family, b"example 4", limit, whole);
    let first = exactly(family, e, 0, less);
    show_limit(out, family, b"example 4", less, first);
    let second = exactly(family, e, taken_by(first), less);
    show_limit(out, family, b"example 4", less, second);
}

// "One R=1 entry, source 0: 32 octets; other source: 38. Limit 37: refusal 9." In IPv6 44 octets and 62, and 9 at 61.
fn example_5(out: &impl Print, family: AddressFamily, least: usize, less: usize)
    requires { (least ≤ 98) × (less ≤ 98) }
{
    let zero = zeros(family);
    let other = one(family);
    let n = place(family, 1);
    let p = exactly(family, front(&zero, n), 0, least);
    show(out, family, b"example 5, source 0: ", p);
    let q = exactly(family, front(&other, n), 0, least);
    show(out, family, b"example 5, other source: ", q);
    let low = exactly(family, front(&other, n), 0, less);
    show_limit(out, family, b"example 5", less, low);
}

// "Two R=1 entries, one group, both source 0: one group record, p=2, 44 octets." In IPv6 "a message of two is 68 octets",
// of two group records with p=0, and so are three; four are one group record. The number of group records is at octet
// 16, the first p after the first group.
fn example_6(out: &impl Print, family: AddressFamily, count: usize, p: usize)
    requires { count ≤ 4 }
{
    let room = zeros(family);
    let mut d = [0; 1480];
    let m = pack(family, front(&room, place(family, count)), 0, 1480, &mut d);
    show(out, family, b"example 6: ", m);
    family_name(out, family);
    number(
        out,
        b"example 6: group records ",
        octets::number::<u16>(&d, 16) as u64,
    );
    named(out, b", p=", octets::number::<u16>(&d, p) as u64);
}

// "Empty list, any allowed limit: no message."
fn example_8(out: &impl Print, family: AddressFamily, limit: usize) {
    let mut d = [0; 65536];
    let p = pack(family, b"", 0, limit, &mut d);
    show_limit(out, family, b"example 8", limit, p);
}

fn ipv4(out: &impl Print, list: &[u8]) {
    let family = AddressFamily::Ipv4;
    example_3(out, list);
    limit_0(out, list);
    example_4(out, family, 50, 49);
    example_5(out, family, 38, 37);
    example_6(out, family, 2, 28);
    example_8(out, family, 0);
    example_8(out, family, 38);
    example_8(out, family, 1480);
    example_8(out, family, 65515);
}

fn ipv6(out: &impl Print) {
    let family = AddressFamily::Ipv6;
    example_4(out, family, 98, 97);
    example_5(out, family, 62, 61);
    example_6(out, family, 2, 40);
    example_6(out, family, 3, 40);
    example_6(out, family, 4, 40);
    example_8(out, family, 62);
}

pub(crate) fn run(out: &impl Print, list: &[u8]) {
    ipv4(out, list);
    ipv6(out);
}
