// Where a run of entries ends: neighbouring asserts that are joined into one aggregated record, and inside one with R=1
// those of one group. What the entries of a run share is read once, and the others are compared with it.
// The family is no const parameter here: tried and slower, as the compiler then turns both halves of an IPv6 address round before it compares
// one, by shuffles.
ghost use Rattle.std.specs.Prelude.{◌≡◌, true, false, ◌&&◌, ◌+◌, ◌*◌, ◌≤◌, ◌<◌, length, eqb};
ghost use Rattle.octets.specs.Octets.{number_at};
ghost use Rattle.records.specs.Records.{r_bit};
ghost use Rattle.format.specs.Family.{family_of};
ghost use Rattle.format.specs.Path.{number_of};
ghost use Rattle.packing.specs.Joins.{group_at, entry_size, run_length, Aggregated, Group};

use addresses::{front_size, is_same, width};
use format::Address;
use octets::{number, whole};

// The octets of an assert entry.
pub(crate) fn assert_size(ipv6: bool) -> usize
    ensures { (result ≡ entry_size (family_of ipv6)) × (result ≤ 44) }
{
    front_size(ipv6) + 2 * width(ipv6) + 8
}

// The number in the four octets at a place. Of a part of four octets the compiler knows that none is missing.
pub(crate) fn word(e: &[u8], at: usize) -> u32
    requires { at + 4 ≤ length e.now }
    ensures { result ≡ number_at 4 e.now at }
{
    number::<u32>(&e[at..at + 4], 0)
}

// The address at a place.
pub(crate) fn address(ipv6: bool, e: &[u8], at: usize) -> Address
    requires { at + (family_of ipv6).width ≤ length e.now }
    ensures { number_of result ≡ number_at (family_of ipv6).width e.now at }
{
    if ipv6 {
        return Address {
            high: whole::<u64>(&e[at..at + 8], 0),
            low: whole::<u64>(&e[at + 8..at + 16], 0),
        };
    }
    Address {
        high: 0,
        low: whole::<u32>(&e[at..at + 4], 0) as u64,
    }
}

// Whether the address at a place is 0: small, so that the compiler puts it into the loop over entries without a source.
pub(crate) fn is_none(ipv6: bool, e: &[u8], at: usize) -> bool
    requires { at + (family_of ipv6).width ≤ length e.now }
    ensures { result ≡ eqb (number_at (family_of ipv6).width e.now at) 0 }
{
    if ipv6 {
        if whole::<u64>(&e[at + 8..at + 16], 0) != 0 {
            return false;
        }
        return whole::<u64>(&e[at..at + 8], 0) == 0;
    }
    whole::<u32>(&e[at..at + 4], 0) == 0
}

// Whether this preference, with R, and this metric stand at a place.
fn has_metric(e: &[u8], at: usize, preference: u32, metric: u32) -> bool
    requires { at + 8 ≤ length e.now }
    ensures { result ≡ eqb preference (number_at 4 e.now at) && eqb metric (number_at 4 e.now (at + 4)) }
{
    if preference != word(e, at) {
        return false;
    }
    metric == word(e, at + 4)
}

// How many of n entries are in the first run with R=0: by equal preference, metric and source.
pub(crate) fn source_run(ipv6: bool, e: &[u8], from: usize, n: usize) -> usize
    requires { (0 < n) × (from + entry_size (family_of ipv6) * n ≤ length e.now) × (r_bit (number_at 4 e.now (group_at (family_of ipv6) from + 2 * (family_of ipv6).width)) ≡ false) }
    ensures { result ≡ run_length (family_of ipv6) Aggregated e.now from n }
{
    let front = front_size(ipv6);
    let w = width(ipv6);
    let size = assert_size(ipv6);
    let source = address(ipv6, e, from + front + w);
    let preference = word(e, from + front + 2 * w);
    let metric = word(e, from + front + 2 * w + 4);
    let mut at = from + size;
    for k in 1..n {
        if !has_metric(e, at + front + 2 * w, preference, metric) {
            return k;
        }
        if !is_same(source, address(ipv6, e, at + front + w)) {
            return k;
        }
        at += size;
    }
    n
}

// How many of n entries are in the first run with R=1: by equal preference and metric.
pub(crate) fn rp_run(ipv6: bool, e: &[u8], from: usize, n: usize) -> usize
    requires { (0 < n) × (from + entry_size (family_of ipv6) * n ≤ length e.now) × (r_bit (number_at 4 e.now (group_at (family_of ipv6) from + 2 * (family_of ipv6).width)) ≡ true) }
    ensures { result ≡ run_length (family_of ipv6) Aggregated e.now from n }
{
    let front = front_size(ipv6);
    let w = width(ipv6);
    let size = assert_size(ipv6);
    let preference = word(e, from + front + 2 * w);
    let metric = word(e, from + front + 2 * w + 4);
    let mut at = from + size;
    for k in 1..n {
        if !has_metric(e, at + front + 2 * w, preference, metric) {
            return k;
        }
        at += size;
    }
    n
}

// How many of n entries are of the first group.
pub(crate) fn group_run(ipv6: bool, e: &[u8], from: usize, n: usize) -> usize
    requires { (0 < n) × (from + entry_size (family_of ipv6) * n ≤ length e.now) }
    ensures { result ≡ run_length (family_of ipv6) Group e.now from n }
{
    let front = front_size(ipv6);
    let size = assert_size(ipv6);
    let group = address(ipv6, e, from + front);
    let mut at = from + size;
    for k in 1..n {
        if !is_same(group, address(ipv6, e, at + front)) {
            return k;
        }
        at += size;
    }
    n
}
