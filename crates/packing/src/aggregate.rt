// The parts of aggregated records, each for the entries of one run. The numbers of groups and of sources are those of
// the run that is written. Nothing is tested here: each function knows that its entries are there and that what it
// writes fits. Each answers the place past it.
ghost use Rattle.std.specs.Prelude.{◌≡◌, false, [], ◌+◌, ◌*◌, ◌≤◌, ◌<◌, length, replicate};
ghost use Rattle.octets.specs.Octets.{number_at, put, be, ◌&◌};
ghost use Rattle.records.specs.Records.{r_bit, of_group};
ghost use Rattle.records.specs.Runs.{leading};
ghost use Rattle.format.specs.Family.{family_of};
ghost use Rattle.format.specs.Record.{each, reserved2, group_record_octets};
ghost use Rattle.packing.specs.Joins.{asserts, entry_at, group_at, entry_size, Aggregated, Group};
ghost use Rattle.packing.specs.Aggregates.{address_octets, address_size, group_head, zero_source, apart, few, records_in, one_of};

use crate::record::{put_group, put_metric, put_source};
use crate::run::{assert_size, is_none};
use addresses::{front_size, width};

// The place past group records, and how many they are.
#[derive(Clone, Copy)]
pub struct Records {
    pub next: usize,
    pub number: usize,
}

// The octets of an encoded address: of the source, or else of the group.
fn address_size(ipv6: bool, source: bool) -> usize
    ensures { result ≡ address_size (family_of ipv6) source }
{
    if source {
        return width(ipv6) + 2;
    }
    width(ipv6) + 4
}

// The source or the group of an entry.
fn put_address(ipv6: bool, source: bool, e: &[u8], at: usize, d: &mut [u8], out: usize)
    requires { (at + entry_size (family_of ipv6) ≤ length e.now) × (out + address_size (family_of ipv6) source ≤ length d.old) }
    ensures { d.new ≡ put d.old out (address_octets (family_of ipv6) source (entry_at (family_of ipv6) e.now at)) }
{
    let group = at + front_size(ipv6);
    if source {
        put_source(ipv6, e, group + width(ipv6), d, out);
        return;
    }
    put_group(ipv6, e, group, d, out);
}

// The sources or the groups of n entries, one after another.
fn put_addresses<const IPV6: bool>(
    source: bool,
    e: &[u8],
    from: usize,
    n: usize,
    d: &mut [u8],
    start: usize,
) -> usize
    requires { (from + entry_size (family_of IPV6) * n ≤ length e.now) × (start + address_size (family_of IPV6) source * n ≤ length d.old) }
    ensures next { result ≡ start + address_size (family_of IPV6) source * n }
    ensures buffer { d.new ≡ put d.old start (each (address_octets (family_of IPV6) source) (asserts (family_of IPV6) e.now from n)) }
{
    let entry = assert_size(IPV6);
    let size = address_size(IPV6, source);
    let mut at = from;
    let mut out = start;
    for _ in 0..n {
        put_address(IPV6, source, e, at, d, out);
        at += entry;
        out += size;
    }
    out
}

// A 16-bit number and two reserved octets.
pub(crate) fn put_number(d: &mut [u8], at: usize, n: usize)
    requires { at + 4 ≤ length d.old }
    ensures { d.new ≡ put d.old at (be 2 n & reserved2) }
{
    d[at] = (n / 256 % 256) as u8;
    d[at + 1] = (n % 256) as u8;
    d[at + 2] = 0;
    d[at + 3] = 0;
}

// How many entries of one group with source 0 are written apart, each as a group record without sources, since one
// group record would be as long or longer.
pub(crate) fn most_apart(ipv6: bool) -> usize
    ensures { result ≡ few ipv6 }
{
    if ipv6 {
        return 3;
    }
    1
}

// How many at the front of n entries have source 0.
pub(crate) fn zeros<const IPV6: bool>(e: &[u8], from: usize, n: usize) -> usize
    requires { from + entry_size (family_of IPV6) * n ≤ length e.now }
    ensures { result ≡ leading zero_source (asserts (family_of IPV6) e.now from n) }
{
    let source = front_size(IPV6) + width(IPV6);
    let size = assert_size(IPV6);
    let mut at = from;
    for k in 0..n {
        if !is_none(IPV6, e, at + source) {
            return k;
        }
        at += size;
    }
    n
}

// Whether k entries of one group are written apart.
fn are_apart<const IPV6: bool>(e: &[u8], from: usize, k: usize) -> bool
    requires { from + entry_size (family_of IPV6) * k ≤ length e.now }
    ensures { result ≡ apart (family_of IPV6) (asserts (family_of IPV6) e.now from k) }
{
    if most_apart(IPV6) < k {
        return false;
    }
    zeros::<IPV6>(e, from, k) == k
}

// What a record of the group at a place, with p sources, begins with.
fn put_group_head(ipv6: bool, e: &[u8], at: usize, p: usize, d: &mut [u8], out: usize) -> usize
    requires { (at + (family_of ipv6).width ≤ length e.now) × (out + ((family_of ipv6).width + 8) ≤ length d.old) }
    ensures next { result ≡ out + ((family_of ipv6).width + 8) }
    ensures buffer { d.new ≡ put d.old out (group_head (family_of ipv6) (number_at (family_of ipv6).width e.now at) p) }
{
    let w = width(ipv6);
    put_group(ipv6, e, at, d, out);
    put_number(d, out + (w + 4), p);
    out + (w + 8)
}

// k group records of the group at a place, all without sources.
fn put_apart<const IPV6: bool>(e: &[u8], at: usize, k: usize, d: &mut [u8], start: usize) -> usize
    requires { (at + (family_of IPV6).width ≤ length e.now) × (start + ((family_of IPV6).width + 8) * k ≤ length d.old) }
    ensures next { result ≡ start + ((family_of IPV6).width + 8) * k }
    ensures buffer { d.new ≡ put d.old start (each (group_record_octets (family_of IPV6)) (replicate k (of_group (number_at (family_of IPV6).width e.now at) []))) }
{
    let mut out = start;
    for _ in 0..k {
        out = put_group_head(IPV6, e, at, 0, d, out);
    }
    out
}

// The group records of k entries of one group: one, or k without sources where that is shorter.
pub(crate) fn put_group_records<const IPV6: bool>(
    e: &[u8],
    from: usize,
    k: usize,
    d: &mut [u8],
    out: usize,
) -> Records
    requires { (0 < k) × (from + entry_size (family_of IPV6) * k ≤ length e.now) × (out + length (one_of (family_of IPV6) Group (asserts (family_of IPV6) e.now from k)) ≤ length d.old) }
    ensures next { result.next ≡ out + length (one_of (family_of IPV6) Group (asserts (family_of IPV6) e.now from k)) }
    ensures number { result.number ≡ length (records_in (family_of IPV6) Group (asserts (family_of IPV6) e.now from k)) }
    ensures buffer { d.new ≡ put d.old out (one_of (family_of IPV6) Group (asserts (family_of IPV6) e.now from k)) }
{
    let group = from + front_size(IPV6);
    if are_apart::<IPV6>(e, from, k) {
        let end = put_apart::<IPV6>(e, group, k, d, out);
        return Records {
            next: end,
            number: k,
        };
    }
    let head = put_group_head(IPV6, e, group, k, d, out);
    let next = put_addresses::<IPV6>(true, e, from, k, d, head);
    Records { next, number: 1 }
}

// The source aggregated record of k entries.
pub(crate) fn put_source_aggregated<const IPV6: bool>(
    e: &[u8],
    from: usize,
    k: usize,
    d: &mut [u8],
    out: usize,
) -> usize
    requires { (0 < k) × (from + entry_size (family_of IPV6) * k ≤ length e.now) × (r_bit (number_at 4 e.now (group_at (family_of IPV6) from + 2 * (family_of IPV6).width)) ≡ false) × (out + length (one_of (family_of IPV6) Aggregated (asserts (family_of IPV6) e.now from k)) ≤ length d.old) }
    ensures next { result ≡ out + length (one_of (family_of IPV6) Aggregated (asserts (family_of IPV6) e.now from k)) }
    ensures buffer { d.new ≡ put d.old out (one_of (family_of IPV6) Aggregated (asserts (family_of IPV6) e.now from k)) }
{
    let w = width(IPV6);
    let group = from + front_size(IPV6);
    put_metric(e, group + 2 * w, d, out);
    put_source(IPV6, e, group + w, d, out + 8);
    put_number(d, out + (w + 10), k);
    put_addresses::<IPV6>(false, e, from, k, d, out + (w + 14))
}
