// Assert records and pairs of either family: checked field by field, in octet order, and read by plain indices.
ghost use Rattle.std.specs.Prelude.{◌≡◌, ◌+◌, ◌≤◌, eqb, length};
ghost use Rattle.octets.specs.Octets.{number_at};
ghost use Rattle.records.specs.Sizes.{assert_size, pair_size};
ghost use Rattle.format.specs.Family.{family_of, family_named};
ghost use Rattle.format.specs.Record.{assert_record, pair_record, record_at};
ghost use Rattle.fields.specs.Answers.{checked, skipped, single, plain_assert, plain_pair, plain_record, plain_size};
ghost use Rattle.format.specs.Values.{assert_of, pair_of, record_of};

use crate::field::{group_check, octets_check, source_check};
use addresses::{address_at, is_zero_at, width};
use format::{
    AddressFamily, AssertFields, Kind, PairFields, Reason, Record, Refusal, is_ipv6, r_bit,
};
use octets::number;

// Whether the address at a place, which is there, is 0. Four octets are read as such: over `address_at` for both families
// the compiler calls it, and does not put it into the loops over records.
fn zero_at(ipv6: bool, s: &[u8], at: usize) -> bool
    requires { at + (family_of ipv6).width ≤ length s.now }
    ensures { result ≡ eqb (number_at (family_of ipv6).width s.now at) 0 }
{
    if ipv6 {
        return is_zero_at(s, at);
    }
    number::<u32>(s, at) == 0
}

// An assert record.
pub fn assert_check(ipv6: bool, m: &[u8], at: usize) -> Result<usize, Refusal>
    ensures { checked result ≡ skipped (assert_record (family_of ipv6) m.now at) }
{
    let g = group_check(ipv6, m, at);
    let Ok(source_at) = g else {
        return g;
    };
    let s = source_check(ipv6, m, source_at, true);
    let Ok(word_at) = s else {
        return s;
    };
    let v = octets_check(m, word_at, 4);
    let Ok(metric_at) = v else {
        return v;
    };
    // R=0 with source 0 is found here, and its place is the source's.
    if r_bit(number::<u32>(m, word_at)) {
        return octets_check(m, metric_at, 4);
    }
    if zero_at(ipv6, m, source_at + 2) {
        return Err(Reason::BadAddress.at(source_at));
    }
    octets_check(m, metric_at, 4)
}

// A pair.
pub fn pair_check(ipv6: bool, m: &[u8], at: usize, zero_allowed: bool) -> Result<usize, Refusal>
    ensures { checked result ≡ skipped (pair_record (family_of ipv6) zero_allowed m.now at) }
{
    let g = group_check(ipv6, m, at);
    let Ok(source_at) = g else {
        return g;
    };
    source_check(ipv6, m, source_at, zero_allowed)
}

// A record of a kind that has records of one length; 4 for the others.
fn record_check(ipv6: bool, kind: Kind, m: &[u8], at: usize) -> Result<usize, Refusal>
    ensures { checked result ≡ skipped (record_at (family_of ipv6) kind m.now at) }
{
    match kind {
        Kind::Hello => Err(Reason::BadKind.at(0)),
        Kind::Assert => assert_check(ipv6, m, at),
        Kind::Simple => assert_check(ipv6, m, at),
        Kind::Aggregated => Err(Reason::BadKind.at(0)),
        Kind::NullRegister => pair_check(ipv6, m, at, false),
        Kind::RegisterStop => pair_check(ipv6, m, at, true),
    }
}

// The numbers of an assert record that is there.
fn assert_at(ipv6: bool, m: &[u8], at: usize) -> AssertFields
    requires { at + assert_size (family_of ipv6).width ≤ length m.now }
    ensures { assert_of result ≡ plain_assert (family_of ipv6) m.now at }
{
    let w = width(ipv6);
    AssertFields {
        group: address_at(ipv6, m, at + 4),
        source: address_at(ipv6, m, at + (w + 6)),
        r_preference: number::<u32>(m, at + (2 * w + 6)),
        metric: number::<u32>(m, at + (2 * w + 10)),
    }
}

// The same for a pair.
fn pair_at(ipv6: bool, m: &[u8], at: usize) -> PairFields
    requires { at + pair_size (family_of ipv6).width ≤ length m.now }
    ensures { pair_of result ≡ plain_pair (family_of ipv6) m.now at }
{
    PairFields {
        group: address_at(ipv6, m, at + 4),
        source: address_at(ipv6, m, at + (width(ipv6) + 6)),
    }
}

// The same by the kind. A hello and an aggregated message have no record of one length, and are refused before.
fn record_at(ipv6: bool, kind: Kind, m: &[u8], at: usize) -> Record
    requires { at + plain_size (family_of ipv6) kind ≤ length m.now }
    ensures { record_of result ≡ plain_record (family_of ipv6) kind m.now at }
{
    match kind {
        Kind::Hello => Record::Assert(assert_at(ipv6, m, at)),
        Kind::Assert => Record::Assert(assert_at(ipv6, m, at)),
        Kind::Simple => Record::Assert(assert_at(ipv6, m, at)),
        Kind::Aggregated => Record::Assert(assert_at(ipv6, m, at)),
        Kind::NullRegister => Record::Pair(pair_at(ipv6, m, at)),
        Kind::RegisterStop => Record::Pair(pair_at(ipv6, m, at)),
    }
}

// A record read singly, and the place past it.
#[derive(Clone, Copy)]
pub struct Single {
    pub record: Record,
    pub next: usize,
}

// The record of a kind at a place, and the next place. What follows it is no fault here.
pub fn read_record(
    family: AddressFamily,
    kind: Kind,
    m: &[u8],
    at: usize,
) -> Result<Single, Refusal>
    ensures { single result ≡ record_at (family_named family) kind m.now at }
{
    let ipv6 = is_ipv6(family);
    let next = record_check(ipv6, kind, m, at)?;
    Ok(Single {
        record: record_at(ipv6, kind, m, at),
        next,
    })
}
