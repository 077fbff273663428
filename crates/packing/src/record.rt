// Records written from entries. Nothing is tested here: each function knows that its entry is there and that the
// record fits. Parts that are copied are lent with their length, so that it is not tested either.
ghost use Rattle.std.specs.Prelude.{◌≡◌, ◌+◌, ◌*◌, ◌≤◌, ◌<◌, length};
ghost use Rattle.octets.specs.Octets.{number_at, put, be, ◌&◌};
ghost use Rattle.records.specs.Sizes.{group_size, source_size, pair_size};
ghost use Rattle.format.specs.Family.{family_of};
ghost use Rattle.format.specs.Address.{group_octets, source_octets};
ghost use Rattle.format.specs.Entry.{front_size, pair_at, entries_at};
ghost use Rattle.format.specs.Record.{each, pair_octets};
ghost use Rattle.entries.specs.Kinds.{fields_size, entries_for};
ghost use Rattle.packing.specs.Kinds.{record_at, record_octets, record_size};

use addresses::{copy_address, family_number, front_size, mask_length, width};
use entries::{entry_size, is_assert};
use format::Kind;
use octets::copy;

// The octets of an address, from a place to a place.
fn put_octets(ipv6: bool, e: &[u8], at: usize, d: &mut [u8], out: usize)
    requires { (at + (family_of ipv6).width ≤ length e.now) × (out + (family_of ipv6).width ≤ length d.old) }
    ensures { d.new ≡ put d.old out (be (family_of ipv6).width (number_at (family_of ipv6).width e.now at)) }
{
    let w = width(ipv6);
    copy_address(ipv6, &e[at..at + w], &mut d[out..out + w]);
}

// A group: family, 0, flags 0, mask length, address.
pub(crate) fn put_group(ipv6: bool, e: &[u8], at: usize, d: &mut [u8], out: usize)
    requires { (at + (family_of ipv6).width ≤ length e.now) × (out + group_size (family_of ipv6).width ≤ length d.old) }
    ensures { d.new ≡ put d.old out (group_octets (family_of ipv6) (number_at (family_of ipv6).width e.now at)) }
{
    d[out] = family_number(ipv6);
    d[out + 1] = 0;
    d[out + 2] = 0;
    d[out + 3] = mask_length(ipv6);
    put_octets(ipv6, e, at, d, out + 4);
}

// A source: family, 0, address.
pub(crate) fn put_source(ipv6: bool, e: &[u8], at: usize, d: &mut [u8], out: usize)
    requires { (at + (family_of ipv6).width ≤ length e.now) × (out + source_size (family_of ipv6).width ≤ length d.old) }
    ensures { d.new ≡ put d.old out (source_octets (family_of ipv6) (number_at (family_of ipv6).width e.now at)) }
{
    d[out] = family_number(ipv6);
    d[out + 1] = 0;
    put_octets(ipv6, e, at, d, out + 2);
}

// What every record begins with: group, source; from the place of the group.
fn put_pair(ipv6: bool, e: &[u8], at: usize, d: &mut [u8], out: usize)
    requires { (at + 2 * (family_of ipv6).width ≤ length e.now) × (out + pair_size (family_of ipv6).width ≤ length d.old) }
    ensures { d.new ≡ put d.old out (pair_octets (family_of ipv6) (pair_at (family_of ipv6) e.now at)) }
{
    let w = width(ipv6);
    put_group(ipv6, e, at, d, out);
    put_source(ipv6, e, at + w, d, out + 4 + w);
}

// R with preference and metric, from the place of the first.
pub(crate) fn put_metric(e: &[u8], at: usize, d: &mut [u8], out: usize)
    requires { (at + 8 ≤ length e.now) × (out + 8 ≤ length d.old) }
    ensures { d.new ≡ put d.old out (be 4 (number_at 4 e.now at) & be 4 (number_at 4 e.now (at + 4))) }
{
    copy::<8>(&e[at..at + 8], &mut d[out..out + 8]);
}

// The octets of a record: an entry without its front, with what goes before the group and the source.
pub(crate) fn record_size(ipv6: bool, asserts: bool) -> usize
    ensures { (result ≡ fields_size (family_of ipv6) asserts + 6) × (0 < result) × (result ≤ 46) }
{
    let pair = 2 * width(ipv6) + 6;
    if asserts {
        return pair + 8;
    }
    pair
}

// The record of the entry at a place; that of an assert goes on with R, preference and metric.
fn put_record(ipv6: bool, asserts: bool, e: &[u8], at: usize, d: &mut [u8], out: usize)
    requires { (at + (front_size (family_of ipv6) + fields_size (family_of ipv6) asserts) ≤ length e.now) × (out + (fields_size (family_of ipv6) asserts + 6) ≤ length d.old) }
    ensures { d.new ≡ put d.old out (record_at (family_of ipv6) asserts e.now at) }
{
    let group = at + front_size(ipv6);
    let pair = 2 * width(ipv6);
    put_pair(ipv6, e, group, d, out);
    if asserts {
        put_metric(e, group + pair, d, out + 6 + pair);
    }
}

// The records of n entries, one after another. It answers the place past them.
pub(crate) fn put_records<const IPV6: bool>(
    kind: Kind,
    e: &[u8],
    from: usize,
    n: usize,
    d: &mut [u8],
    start: usize,
) -> usize
    requires { (from + (entries_for IPV6 kind).size * n ≤ length e.now) × (start + record_size IPV6 kind * n ≤ length d.old) }
    ensures next { result ≡ start + record_size IPV6 kind * n }
    ensures buffer { d.new ≡ put d.old start (each (record_octets IPV6 kind) (entries_at (entries_for IPV6 kind) e.now from n)) }
{
    let asserts = is_assert(kind);
    let size = entry_size(IPV6, true, kind);
    let record = record_size(IPV6, asserts);
    let mut at = from;
    let mut out = start;
    for _ in 0..n {
        put_record(IPV6, asserts, e, at, d, out);
        at += size;
        out += record;
    }
    out
}
