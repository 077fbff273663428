// The second pass of a reading call: the entries of octets that were checked, written one after another.
// Octets are copied as they stand; no number is read but the counts, and R.
// Nothing is refused here: each function knows that its octets are there and that the entries fit.
// The family is a const parameter of what has a loop, so that the compiler makes each loop for each family.
ghost use Rattle.std.specs.Prelude.{◌≡◌, true, cond, ◌++◌, ◌+◌, ◌≤◌, ◌*◌, length};
ghost use Rattle.octets.specs.Octets.{number_at, be, put};
ghost use Rattle.records.specs.Sizes.{group_record_size, group_records_size, aggregated_size, all_size};
ghost use Rattle.records.specs.Records.{group_entries, all_group_entries, entries, all_entries};
ghost use Rattle.format.specs.Family.{family_of};
ghost use Rattle.format.specs.Record.{each};
ghost use Rattle.format.specs.Entry.{front_size, assert_entry_octets};
ghost use Rattle.reading.specs.Plain.{entries_for, words, entry_size, entry_with, plain_size, plain_entries, skip, like_entries, plain_group_record, plain_group_records, plain_aggregated, plain_records};
ghost use Rattle.reading.specs.Copied.{Fit, Copied};

use addresses::{copy_address, front_size, width};
use format::r_bit;
use octets::{copy, number, write};

// One of two numbers.
fn either(first: bool, a: usize, b: usize) -> usize
    ensures { (result ≡ cond first a b) × (result ≤ a + b) }
{
    if first {
        return a;
    }
    b
}

// The octets of an entry: the front, group and source, and of an assert two words.
pub(crate) fn entry_size(ipv6: bool, is_assert: bool) -> usize
    ensures { (result ≡ entry_size is_assert (family_of ipv6)) × (8 ≤ result) × (result ≤ 44) }
{
    front_size(ipv6) + 2 * width(ipv6) + either(is_assert, 8, 0)
}

// Two addresses, one after another.
fn copy_two(ipv6: bool, m: &[u8], first: usize, s: &[u8], second: usize, d: &mut [u8], out: usize)
    requires { (first + (family_of ipv6).width ≤ length m.now) × (second + (family_of ipv6).width ≤ length s.now) × (out + 2 * (family_of ipv6).width ≤ length d.old) }
    ensures { d.new ≡ put d.old out (be (family_of ipv6).width (number_at (family_of ipv6).width m.now first) ++ be (family_of ipv6).width (number_at (family_of ipv6).width s.now second)) }
{
    let w = width(ipv6);
    copy_address(ipv6, &m[first..first + w], &mut d[out..out + w]);
    copy_address(ipv6, &s[second..second + w], &mut d[out + w..out + 2 * w]);
}

// What an entry begins with: the family and three zero octets, as one word.
fn put_front(ipv6: bool, d: &mut [u8], out: usize)
    requires { out + front_size (family_of ipv6) ≤ length d.old }
    ensures { d.new ≡ put d.old out (family_of ipv6).front }
{
    if ipv6 {
        write::<u32>(&mut d[out..out + 4], 0, 0x0200_0000);
        return;
    }
    write::<u32>(&mut d[out..out + 4], 0, 0x0100_0000);
}

// An entry, from the places of its group and, of an assert, of its word R with preference, after which the metric stands.
// The source is lent apart: a group record without sources has none in the message.
fn copy_entry(
    ipv6: bool,
    is_assert: bool,
    m: &[u8],
    group: usize,
    s: &[u8],
    source: usize,
    word: usize,
    d: &mut [u8],
    out: usize,
)
    requires { (group + (family_of ipv6).width ≤ length m.now) × (source + (family_of ipv6).width ≤ length s.now) × (word + words is_assert ≤ length m.now) × (out + entry_size is_assert (family_of ipv6) ≤ length d.old) }
    ensures { d.new ≡ put d.old out ((entries_for is_assert (family_of ipv6)).octets_of (entry_with is_assert (family_of ipv6) (number_at (family_of ipv6).width m.now group) (number_at (family_of ipv6).width s.now source) (number_at 4 m.now word) (number_at 4 m.now (word + 4)))) }
{
    let addresses = out + front_size(ipv6);
    put_front(ipv6, d, out);
    copy_two(ipv6, m, group, s, source, d, addresses);
    if is_assert {
        let words = addresses + 2 * width(ipv6);
        copy::<8>(&m[word..word + 8], &mut d[words..words + 8]);
    }
}

// n assert records, or n pairs, one after another.
pub(crate) fn copy_records<const IPV6: bool>(
    is_assert: bool,
    m: &[u8],
    from: usize,
    n: usize,
    d: &mut [u8],
)
    requires { (from + plain_size is_assert (family_of IPV6).width * n ≤ length m.now) × (entry_size is_assert (family_of IPV6) * n ≤ length d.old) }
    ensures { d.new ≡ put d.old 0 (each (entries_for is_assert (family_of IPV6)).octets_of (plain_entries is_assert (family_of IPV6) m.now from n)) }
{
    let w = width(IPV6);
    let record = 2 * w + 6 + either(is_assert, 8, 0);
    let size = entry_size(IPV6, is_assert);
    let mut at = from;
    let mut out = 0;
    for _ in 0..n {
        let source = at + (w + 6);
        copy_entry(IPV6, is_assert, m, at + 4, m, source, source + w, d, out);
        at += record;
        out += size;
    }
}

// The places past what was read and past what was written.
#[derive(Clone, Copy)]
struct Places {
    at: usize,
    out: usize,
}

// One entry for each of n groups, or of n sources, all with one other address and two words.
fn copy_addresses<const IPV6: bool>(
    is_group: bool,
    m: &[u8],
    from: usize,
    n: usize,
    other: usize,
    word: usize,
    d: &mut [u8],
    start: usize,
) -> Places
    requires { (other + (family_of IPV6).width ≤ length m.now) × (word + 8 ≤ length m.now) × Fit (family_of IPV6) m.now from (((family_of IPV6).width + skip is_group) * n) d.old start (like_entries is_group (family_of IPV6).width m.now other word from n) }
    ensures { Copied (family_of IPV6) from (((family_of IPV6).width + skip is_group) * n) d.old start (like_entries is_group (family_of IPV6).width m.now other word from n) d.new result }
{
    let w = width(IPV6);
    let size = entry_size(IPV6, true);
    let mut at = from;
    let mut out = start;
    for _ in 0..n {
        let address = at + either(is_group, 4, 2);
        let group = either(is_group, address, other);
        let source = either(is_group, other, address);
        copy_entry(IPV6, true, m, group, m, source, word, d, out);
        at = address + w;
        out += size;
    }
    Places { at, out }
}

// The entries of a group record; with no source one entry with source 0.
fn copy_group_record<const IPV6: bool>(
    m: &[u8],
    at: usize,
    d: &mut [u8],
    out: usize,
    word: usize,
) -> Places
    requires { (word + 8 ≤ length m.now) × Fit (family_of IPV6) m.now at (group_record_size (family_of IPV6).width (number_at 2 m.now (at + ((family_of IPV6).width + 4)))) d.old out (group_entries (number_at 4 m.now word) (number_at 4 m.now (word + 4)) (plain_group_record (family_of IPV6).width m.now at)) }
    ensures { Copied (family_of IPV6) at (group_record_size (family_of IPV6).width (number_at 2 m.now (at + ((family_of IPV6).width + 4)))) d.old out (group_entries (number_at 4 m.now word) (number_at 4 m.now (word + 4)) (plain_group_record (family_of IPV6).width m.now at)) d.new result }
{
    let w = width(IPV6);
    let sources = at + (w + 8);
    let p = number::<u16>(&m[at + (w + 4)..at + (w + 6)], 0) as usize;
    if p == 0 {
        let zeros = b"\x00\x00\x00\x00\x00\x00\x00\x00\x00\x00\x00\x00\x00\x00\x00\x00";
        copy_entry(IPV6, true, m, at + 4, zeros, 0, word, d, out);
        return Places {
            at: sources,
            out: out + entry_size(IPV6, true),
        };
    }
    copy_addresses::<IPV6>(false, m, sources, p, at + 4, word, d, out)
}

// The entries of n group records, one after another.
fn copy_group_records<const IPV6: bool>(
    m: &[u8],
    from: usize,
    n: usize,
    d: &mut [u8],
    start: usize,
    word: usize,
) -> Places
    requires { (word + 8 ≤ length m.now) × Fit (family_of IPV6) m.now from (group_records_size (family_of IPV6).width (plain_group_records (family_of IPV6).width m.now from n)) d.old start (all_group_entries (number_at 4 m.now word) (number_at 4 m.now (word + 4)) (plain_group_records (family_of IPV6).width m.now from n)) }
    ensures { Copied (family_of IPV6) from (group_records_size (family_of IPV6).width (plain_group_records (family_of IPV6).width m.now from n)) d.old start (all_group_entries (number_at 4 m.now word) (number_at 4 m.now (word + 4)) (plain_group_records (family_of IPV6).width m.now from n)) d.new result }
{
    let mut at = from;
    let mut out = start;
    for _ in 0..n {
        let p = copy_group_record::<IPV6>(m, at, d, out, word);
        at = p.at;
        out = p.out;
    }
    Places { at, out }
}

// The entries of an aggregated record, of which R tells the two forms apart.
fn copy_record<const IPV6: bool>(m: &[u8], at: usize, d: &mut [u8], out: usize) -> Places
    requires { Fit (family_of IPV6) m.now at (aggregated_size (family_of IPV6).width (plain_aggregated (family_of IPV6).width m.now at)) d.old out (entries (plain_aggregated (family_of IPV6).width m.now at)) }
    ensures { Copied (family_of IPV6) at (aggregated_size (family_of IPV6).width (plain_aggregated (family_of IPV6).width m.now at)) d.old out (entries (plain_aggregated (family_of IPV6).width m.now at)) d.new result }
{
    if r_bit(number::<u32>(&m[at..at + 4], 0)) {
        let n = number::<u16>(&m[at + 8..at + 10], 0) as usize;
        return copy_group_records::<IPV6>(m, at + 12, n, d, out, at);
    }
    let w = width(IPV6);
    let n = number::<u16>(&m[at + (w + 10)..at + (w + 12)], 0) as usize;
    copy_addresses::<IPV6>(true, m, at + (w + 14), n, at + 10, at, d, out)
}

// The entries of the aggregated records up to the end of a message.
pub(crate) fn copy_aggregated<const IPV6: bool>(m: &[u8], from: usize, d: &mut [u8])
    requires { (from + all_size (family_of IPV6).width (plain_records (family_of IPV6).width (length m.now) m.now from) ≡ length m.now) × (entry_size true (family_of IPV6) * length (all_entries (plain_records (family_of IPV6).width (length m.now) m.now from)) ≤ length d.old) }
    ensures { d.new ≡ put d.old 0 (each (assert_entry_octets (family_of IPV6)) (all_entries (plain_records (family_of IPV6).width (length m.now) m.now from))) }
{
    let mut at = from;
    let mut out = 0;
    // A record says how long it is only as it is read, so no range has the places: an iterator would be this loop and a type more.
    while at < m.len() {
        let p = copy_record::<IPV6>(m, at, d, out);
        at = p.at;
        out = p.out;
    }
}
