// The most entries whose aggregated records stay within a limit, written run by run in one pass. A run that the limit
// cuts ends the message: the next entry does not fit even alone, so the next turn takes nothing. Only the room is
// tested: each function knows that its entries are there and that the buffer is as long as the limit.
ghost use Rattle.std.specs.Prelude.{◌≡◌, true, false, ◌+◌, ◌-◌, ◌*◌, ◌/◌, ◌≤◌, ◌<◌, min, length};
ghost use Rattle.octets.specs.Octets.{number_at, put};
ghost use Rattle.records.specs.Records.{r_bit};
ghost use Rattle.format.specs.Family.{family_of};
ghost use Rattle.packing.specs.Joins.{asserts, group_at, entry_size, run_length, Aggregated, Group};
ghost use Rattle.packing.specs.Aggregates.{one_of, all_of, number_of, MostWithin};

use crate::aggregate::{most_apart, put_group_records, put_number, put_source_aggregated, zeros};
use crate::record::put_metric;
use crate::run::{assert_size, group_run, rp_run, source_run, word};
use addresses::{front_size, width};
use format::r_bit;

// How many entries were taken, and the place past what was written.
#[derive(Clone, Copy)]
pub struct Fitted {
    pub taken: usize,
    pub next: usize,
}

// How many entries were taken, the place past what was written, and how many group records that is.
#[derive(Clone, Copy)]
pub struct FittedGroups {
    taken: usize,
    next: usize,
    number: usize,
}

// How many fields of an address and some octets more have room past a beginning of so many octets. The divisor is a literal where the call is
// inlined, as the family is a const parameter.
fn in_room<const IPV6: bool>(room: usize, first: usize, more: usize) -> usize
    requires { more ≤ 8 }
    ensures { result ≡ (room - first) / ((family_of IPV6).width + more) }
{
    if room < first {
        return 0;
    }
    (room - first) / (width(IPV6) + more)
}

// How many of n entries of one group fit into so many octets: as one group record, or where their sources are 0 as
// group records without sources.
fn sources_within<const IPV6: bool>(e: &[u8], from: usize, n: usize, room: usize) -> usize
    requires { from + entry_size (family_of IPV6) * n ≤ length e.now }
    ensures { MostWithin (family_of IPV6) (one_of (family_of IPV6) Group) e.now from n room result }
{
    let joined = n.min(in_room::<IPV6>(room, width(IPV6) + 8, 2));
    let few = most_apart(IPV6);
    if few <= joined {
        return joined;
    }
    let heads = in_room::<IPV6>(room, 0, 8);
    let apart = zeros::<IPV6>(e, from, n.min(few).min(heads));
    if joined < apart {
        return apart;
    }
    joined
}

// The first source aggregated record, of as many entries of the first run as fit.
fn put_source_within<const IPV6: bool>(
    e: &[u8],
    from: usize,
    n: usize,
    d: &mut [u8],
    out: usize,
    limit: usize,
) -> Fitted
    requires { (0 < n) × (from + entry_size (family_of IPV6) * n ≤ length e.now) × (out ≤ limit) × (limit ≤ length d.old) × (r_bit (number_at 4 e.now (group_at (family_of IPV6) from + 2 * (family_of IPV6).width)) ≡ false) }
    ensures taken { MostWithin (family_of IPV6) (all_of (family_of IPV6) Aggregated) e.now from (run_length (family_of IPV6) Aggregated e.now from n) (limit - out) result.taken }
    ensures next { result.next ≡ out + length (all_of (family_of IPV6) Aggregated (asserts (family_of IPV6) e.now from result.taken)) }
    ensures buffer { d.new ≡ put d.old out (all_of (family_of IPV6) Aggregated (asserts (family_of IPV6) e.now from result.taken)) }
{
    let most = n.min(in_room::<IPV6>(limit - out, 14 + width(IPV6), 4));
    if most == 0 {
        return Fitted {
            taken: 0,
            next: out,
        };
    }
    let taken = source_run(IPV6, e, from, most);
    let next = put_source_aggregated::<IPV6>(e, from, taken, d, out);
    Fitted { taken, next }
}

// The first group records, of as many entries of the first group as fit.
fn put_group_within<const IPV6: bool>(
    e: &[u8],
    from: usize,
    n: usize,
    d: &mut [u8],
    out: usize,
    limit: usize,
) -> FittedGroups
    requires { (0 < n) × (from + entry_size (family_of IPV6) * n ≤ length e.now) × (out ≤ limit) × (limit ≤ length d.old) }
    ensures taken { MostWithin (family_of IPV6) (all_of (family_of IPV6) Group) e.now from (run_length (family_of IPV6) Group e.now from n) (limit - out) result.taken }
    ensures next { result.next ≡ out + length (all_of (family_of IPV6) Group (asserts (family_of IPV6) e.now from result.taken)) }
    ensures number { result.number ≡ number_of (family_of IPV6) Group (asserts (family_of IPV6) e.now from result.taken) }
    ensures buffer { d.new ≡ put d.old out (all_of (family_of IPV6) Group (asserts (family_of IPV6) e.now from result.taken)) }
{
    let most = sources_within::<IPV6>(e, from, n, limit - out);
    if most == 0 {
        return FittedGroups {
            taken: 0,
            next: out,
            number: 0,
        };
    }
    let taken = group_run(IPV6, e, from, most);
    let records = put_group_records::<IPV6>(e, from, taken, d, out);
    FittedGroups {
        taken,
        next: records.next,
        number: records.number,
    }
}

// The group records of as many of n entries as fit.
fn put_groups_within<const IPV6: bool>(
    e: &[u8],
    from: usize,
    n: usize,
    d: &mut [u8],
    start: usize,
    limit: usize,
) -> FittedGroups
    requires { (from + entry_size (family_of IPV6) * n ≤ length e.now) × (start ≤ limit) × (limit ≤ length d.old) }
    ensures taken { MostWithin (family_of IPV6) (all_of (family_of IPV6) Group) e.now from n (limit - start) result.taken }
    ensures next { result.next ≡ start + length (all_of (family_of IPV6) Group (asserts (family_of IPV6) e.now from result.taken)) }
    ensures number { result.number ≡ number_of (family_of IPV6) Group (asserts (family_of IPV6) e.now from result.taken) }
    ensures buffer { d.new ≡ put d.old start (all_of (family_of IPV6) Group (asserts (family_of IPV6) e.now from result.taken)) }
{
    let mut taken = 0;
    let mut at = from;
    let mut out = start;
    let mut number = 0;
    // Each turn says how many entries it took, so no range has the places.
    while taken < n {
        let group = put_group_within::<IPV6>(e, at, n - taken, d, out, limit);
        if group.taken == 0 {
            return FittedGroups {
                taken,
                next: out,
                number,
            };
        }
        taken += group.taken;
        at += assert_size(IPV6) * group.taken;
        out = group.next;
        number += group.number;
    }
    FittedGroups {
        taken,
        next: out,
        number,
    }
}

// The first RP aggregated record, of as many entries of the first run as fit: the group records, then what stands
// before them, with their number.
fn put_rp_within<const IPV6: bool>(
    e: &[u8],
    from: usize,
    n: usize,
    d: &mut [u8],
    out: usize,
    limit: usize,
) -> Fitted
    requires { (0 < n) × (from + entry_size (family_of IPV6) * n ≤ length e.now) × (out ≤ limit) × (limit ≤ length d.old) × (r_bit (number_at 4 e.now (group_at (family_of IPV6) from + 2 * (family_of IPV6).width)) ≡ true) }
    ensures taken { MostWithin (family_of IPV6) (all_of (family_of IPV6) Aggregated) e.now from (run_length (family_of IPV6) Aggregated e.now from n) (limit - out) result.taken }
    ensures next { result.next ≡ out + length (all_of (family_of IPV6) Aggregated (asserts (family_of IPV6) e.now from result.taken)) }
    ensures buffer { d.new ≡ put d.old out (all_of (family_of IPV6) Aggregated (asserts (family_of IPV6) e.now from result.taken)) }
{
    let w = width(IPV6);
    let none = Fitted {
        taken: 0,
        next: out,
    };
    if limit - out < 20 + w {
        return none;
    }
    // Each entry takes a source's octets or more, so no run is looked at past what could fit.
    let most = n.min(in_room::<IPV6>(limit - out, 0, 2));
    let k = rp_run(IPV6, e, from, most);
    let groups = put_groups_within::<IPV6>(e, from, k, d, out + 12, limit);
    if groups.taken == 0 {
        return none;
    }
    put_metric(e, from + front_size(IPV6) + 2 * w, d, out);
    put_number(d, out + 8, groups.number);
    Fitted {
        taken: groups.taken,
        next: groups.next,
    }
}

// The first aggregated record, by the R bit of the first entry.
fn put_aggregated_within<const IPV6: bool>(
    e: &[u8],
    from: usize,
    n: usize,
    d: &mut [u8],
    out: usize,
    limit: usize,
) -> Fitted
    requires { (0 < n) × (from + entry_size (family_of IPV6) * n ≤ length e.now) × (out ≤ limit) × (limit ≤ length d.old) }
    ensures taken { MostWithin (family_of IPV6) (all_of (family_of IPV6) Aggregated) e.now from (run_length (family_of IPV6) Aggregated e.now from n) (limit - out) result.taken }
    ensures next { result.next ≡ out + length (all_of (family_of IPV6) Aggregated (asserts (family_of IPV6) e.now from result.taken)) }
    ensures buffer { d.new ≡ put d.old out (all_of (family_of IPV6) Aggregated (asserts (family_of IPV6) e.now from result.taken)) }
{
    if r_bit(word(e, from + front_size(IPV6) + 2 * width(IPV6))) {
        return put_rp_within::<IPV6>(e, from, n, d, out, limit);
    }
    put_source_within::<IPV6>(e, from, n, d, out, limit)
}

// The aggregated records of as many of n entries as fit.
pub(crate) fn put_within<const IPV6: bool>(
    e: &[u8],
    from: usize,
    n: usize,
    d: &mut [u8],
    start: usize,
    limit: usize,
) -> Fitted
    requires { (from + entry_size (family_of IPV6) * n ≤ length e.now) × (start ≤ limit) × (limit ≤ length d.old) }
    ensures taken { MostWithin (family_of IPV6) (all_of (family_of IPV6) Aggregated) e.now from n (limit - start) result.taken }
    ensures next { result.next ≡ start + length (all_of (family_of IPV6) Aggregated (asserts (family_of IPV6) e.now from result.taken)) }
    ensures buffer { d.new ≡ put d.old start (all_of (family_of IPV6) Aggregated (asserts (family_of IPV6) e.now from result.taken)) }
{
    let mut taken = 0;
    let mut at = from;
    let mut out = start;
    // As above, a turn says how many entries it took.
    while taken < n {
        let record = put_aggregated_within::<IPV6>(e, at, n - taken, d, out, limit);
        if record.taken == 0 {
            return Fitted { taken, next: out };
        }
        taken += record.taken;
        at += assert_size(IPV6) * record.taken;
        out = record.next;
    }
    Fitted { taken, next: out }
}
