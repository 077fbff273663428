// Aggregated records: checked in octet order, and the entries that they stand for counted.
ghost use Rattle.std.specs.Prelude.{◌≡◌, true, ℕ, ◌+◌, ◌/◌, ◌≤◌, min, length};
ghost use Rattle.format.specs.Reader.{times};
ghost use Rattle.format.specs.Family.{family_of};
ghost use Rattle.format.specs.Record.{positive, group_record, source_aggregated, rp_aggregated, aggregated_record};
ghost use Rattle.fields.specs.Answers.{checked, skipped};
ghost use Rattle.fields.specs.Encoded.{address_size, address_field};
ghost use Rattle.counting.specs.Counts.{whole_in, counted, tallied, group_count, groups_count, record_count};

use fields::{address_size, group_check, is_address, octets_check, source_check};
use format::{Reason, Refusal, r_bit};
use octets::number;

// The number of entries, and the place past what they were read from.
#[derive(Clone, Copy)]
pub struct Counted {
    pub entries: usize,
    pub next: usize,
}

// How many groups, or sources, so many octets hold. Each size is divided by as a literal: a division by a number that is
// known at run time only is slow.
fn addresses_in(ipv6: bool, is_group: bool, octets: usize) -> usize
    ensures { result ≡ octets / address_size (family_of ipv6) is_group }
{
    if ipv6 {
        if is_group {
            return octets / 20;
        }
        return octets / 18;
    }
    if is_group {
        return octets / 8;
    }
    octets / 6
}

// How many of n groups, or of n sources, are there whole from a place on.
fn whole_addresses(ipv6: bool, m: &[u8], from: usize, n: usize, is_group: bool) -> usize
    ensures { result ≡ min n (whole_in (address_size (family_of ipv6) is_group) m.now from) }
{
    if m.len() < from {
        return 0;
    }
    let there = addresses_in(ipv6, is_group, m.len() - from);
    if there < n {
        return there;
    }
    n
}

// The answer of a group that is there whole, or of a source of a group record: only its form can be at fault.
fn address_check(ipv6: bool, m: &[u8], at: usize, is_group: bool) -> Result<usize, Refusal>
    requires { at + address_size (family_of ipv6) is_group ≤ length m.now }
    ensures answer { checked result ≡ skipped (address_field (family_of ipv6) is_group true m.now at) }
    ensures next { (k : ℕ) → result ≡ Ok k → k ≡ at + address_size (family_of ipv6) is_group }
{
    let next = at + address_size(ipv6, is_group);
    if is_address(ipv6, is_group, &m[at..next], true) {
        return Ok(next);
    }
    Err(Reason::BadAddress.at(at))
}

// n groups, or n sources of a group record, one after another: those that are there whole, and past them the octets end.
fn addresses_check<const IPV6: bool, const IS_GROUP: bool>(
    m: &[u8],
    from: usize,
    n: usize,
) -> Result<usize, Refusal>
    ensures { checked result ≡ skipped (times n (address_field (family_of IPV6) IS_GROUP true) m.now from) }
{
    let whole = whole_addresses(IPV6, m, from, n, IS_GROUP);
    let mut at = from;
    for _ in 0..whole {
        let c = address_check(IPV6, m, at, IS_GROUP);
        let Ok(next) = c else {
            return c;
        };
        at = next;
    }
    if whole < n {
        return Err(Reason::Cut.at(at));
    }
    Ok(at)
}

// A check, as a count of so many entries if it passed.
pub(crate) fn with_count(entries: usize, c: Result<usize, Refusal>) -> Result<Counted, Refusal>
    ensures { counted result ≡ tallied (λ u. entries) (checked c) }
{
    match c {
        Ok(next) => Ok(Counted { entries, next }),
        Err(r) => Err(r),
    }
}

// One entry for each source; p=0 is one entry.
fn group_record<const IPV6: bool>(m: &[u8], at: usize) -> Result<Counted, Refusal>
    ensures { counted result ≡ tallied group_count (group_record (family_of IPV6) m.now at) }
{
    let g = group_check(IPV6, m, at);
    let Ok(count_at) = g else {
        return with_count(0, g);
    };
    let f = octets_check(m, count_at, 2);
    let Ok(reserved_at) = f else {
        return with_count(0, f);
    };
    let p = number::<u16>(m, count_at) as usize;
    let r = octets_check(m, reserved_at, 2);
    let Ok(sources_at) = r else {
        return with_count(0, r);
    };
    let s = addresses_check::<IPV6, false>(m, sources_at, p);
    if p == 0 {
        return with_count(1, s);
    }
    with_count(p, s)
}

// n group records, one after another.
fn group_records<const IPV6: bool>(m: &[u8], from: usize, n: usize) -> Result<Counted, Refusal>
    ensures { counted result ≡ tallied groups_count (times n (group_record (family_of IPV6)) m.now from) }
{
    let mut at = from;
    let mut total = 0;
    for _ in 0..n {
        let c = group_record::<IPV6>(m, at);
        let Ok(some) = c else {
            return c;
        };
        at = some.next;
        total += some.entries;
    }
    Ok(Counted {
        entries: total,
        next: at,
    })
}

// A number of groups or of group records: two octets, and not 0.
fn count_check(m: &[u8], count_at: usize) -> Result<usize, Refusal>
    ensures { checked result ≡ skipped (positive m.now count_at) }
{
    let f = octets_check(m, count_at, 2);
    let Ok(next) = f else {
        return f;
    };
    if number::<u16>(m, count_at) == 0 {
        return Err(Reason::Cut.at(count_at));
    }
    Ok(next)
}

// What follows R with preference and metric in a source aggregated record.
fn source_aggregated<const IPV6: bool>(m: &[u8], at: usize) -> Result<Counted, Refusal>
    ensures { counted result ≡ tallied record_count (source_aggregated (family_of IPV6) 0 0 m.now at) }
{
    let s = source_check(IPV6, m, at, false);
    let Ok(count_at) = s else {
        return with_count(0, s);
    };
    let c = count_check(m, count_at);
    let Ok(reserved_at) = c else {
        return with_count(0, c);
    };
    let n = number::<u16>(m, count_at) as usize;
    let r = octets_check(m, reserved_at, 2);
    let Ok(groups_at) = r else {
        return with_count(0, r);
    };
    with_count(n, addresses_check::<IPV6, true>(m, groups_at, n))
}

// And in an RP aggregated record.
fn rp_aggregated<const IPV6: bool>(m: &[u8], at: usize) -> Result<Counted, Refusal>
    ensures { counted result ≡ tallied record_count (rp_aggregated (family_of IPV6) 0 0 m.now at) }
{
    let c = count_check(m, at);
    let Ok(reserved_at) = c else {
        return with_count(0, c);
    };
    let n = number::<u16>(m, at) as usize;
    let r = octets_check(m, reserved_at, 2);
    let Ok(records_at) = r else {
        return with_count(0, r);
    };
    group_records::<IPV6>(m, records_at, n)
}

// An aggregated record. R tells the two forms apart; the number of entries does not depend on preference and metric.
pub(crate) fn aggregated_record<const IPV6: bool>(m: &[u8], at: usize) -> Result<Counted, Refusal>
    ensures { counted result ≡ tallied record_count (aggregated_record (family_of IPV6) m.now at) }
{
    let v = octets_check(m, at, 4);
    let Ok(metric_at) = v else {
        return with_count(0, v);
    };
    let x = octets_check(m, metric_at, 4);
    let Ok(next) = x else {
        return with_count(0, x);
    };
    if r_bit(number::<u32>(m, at)) {
        return rp_aggregated::<IPV6>(m, next);
    }
    source_aggregated::<IPV6>(m, next)
}
