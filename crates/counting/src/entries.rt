// The body of a message, from octet 4 on: checked in octet order to its end, and its entries counted.
ghost use Rattle.std.specs.Prelude.{◌≡◌, ◌≤◌, length};
ghost use Rattle.format.specs.Reader.{bad, to_end, records};
ghost use Rattle.format.specs.Family.{family_of};
ghost use Rattle.format.specs.Record.{pair_record};
ghost use Rattle.format.specs.Body.{asserts_body, pairs_body};
ghost use Rattle.fields.specs.Answers.{checked, skipped};
ghost use Rattle.counting.specs.Counts.{counted, tallied, passed_records, entry_count, sum, packed_kind, packed_start};

use crate::aggregated::{Counted, aggregated_record, with_count};
use crate::whole::{allowed_records, record_size};
use fields::{assert_check, octets_check, pair_check};
use format::{Kind, Reason, Refusal};

// The entries of the record at a place: an aggregated one, an assert record or a pair.
fn record_count<const IPV6: bool>(
    joined: bool,
    is_assert: bool,
    zero_allowed: bool,
    m: &[u8],
    at: usize,
) -> Result<Counted, Refusal>
    ensures { counted result ≡ entry_count (family_of IPV6) joined is_assert zero_allowed m.now at }
{
    if joined {
        return aggregated_record::<IPV6>(m, at);
    }
    if is_assert {
        return with_count(1, assert_check(IPV6, m, at));
    }
    with_count(1, pair_check(IPV6, m, at, zero_allowed))
}

// How many records are passed by their form alone; of aggregated ones none is.
fn passed<const IPV6: bool>(
    joined: bool,
    is_assert: bool,
    zero_allowed: bool,
    m: &[u8],
    from: usize,
) -> usize
    requires { from ≤ length m.now }
    ensures { result ≡ passed_records (family_of IPV6) joined is_assert zero_allowed m.now from }
{
    if joined {
        return 0;
    }
    allowed_records::<IPV6>(m, from, is_assert, zero_allowed)
}

// The entries of the records up to the end of a message: past those that are passed by their form, field by field.
fn count_to_end<const IPV6: bool>(
    joined: bool,
    is_assert: bool,
    zero_allowed: bool,
    m: &[u8],
    from: usize,
) -> Result<Counted, Refusal>
    requires { from ≤ length m.now }
    ensures { counted result ≡ tallied sum (to_end (length m.now) (entry_count (family_of IPV6) joined is_assert zero_allowed) m.now from) }
{
    let mut total = passed::<IPV6>(joined, is_assert, zero_allowed, m, from);
    let mut at = from + total * record_size(IPV6, is_assert);
    // A record is as long as it says, so a `for` has no range to go over.
    while at < m.len() {
        let c = record_count::<IPV6>(joined, is_assert, zero_allowed, m, at);
        let Ok(some) = c else {
            return c;
        };
        at = some.next;
        total += some.entries;
    }
    Ok(Counted {
        entries: total,
        next: at,
    })
}

// Zero, which has to be 0, and Reserved. Then a record has to begin.
fn packed_check(m: &[u8]) -> Result<usize, Refusal>
    ensures { checked result ≡ skipped (packed_start m.now 4) }
{
    let z = octets_check(m, 4, 1);
    let Ok(reserved_at) = z else {
        return z;
    };
    if m[4] != 0 {
        return Err(Reason::NoRecord.at(4));
    }
    let r = octets_check(m, reserved_at, 3);
    let Ok(first) = r else {
        return r;
    };
    if m.len() <= first {
        return Err(Reason::NoRecord.at(first));
    }
    Ok(first)
}

// One assert record, and nothing more.
fn count_plain(ipv6: bool, m: &[u8]) -> Result<Counted, Refusal>
    ensures { counted result ≡ tallied length (asserts_body (family_of ipv6) Kind.Assert m.now 4) }
{
    let c = assert_check(ipv6, m, 4);
    let Ok(next) = c else {
        return with_count(0, c);
    };
    if next < m.len() {
        return Err(Reason::Cut.at(next));
    }
    Ok(Counted { entries: 1, next })
}

// Packed asserts of either form.
fn count_packed<const IPV6: bool>(joined: bool, m: &[u8]) -> Result<Counted, Refusal>
    ensures { counted result ≡ tallied length (asserts_body (family_of IPV6) (packed_kind joined) m.now 4) }
{
    let z = packed_check(m);
    let Ok(first) = z else {
        return with_count(0, z);
    };
    count_to_end::<IPV6>(joined, true, false, m, first)
}

// Asserts of any kind.
fn asserts<const IPV6: bool>(kind: Kind, m: &[u8]) -> Result<Counted, Refusal>
    ensures { counted result ≡ tallied length (asserts_body (family_of IPV6) kind m.now 4) }
{
    match kind {
        Kind::Hello => Err(Reason::BadKind.at(0)),
        Kind::Assert => count_plain(IPV6, m),
        Kind::Simple => count_packed::<IPV6>(false, m),
        Kind::Aggregated => count_packed::<IPV6>(true, m),
        Kind::NullRegister => Err(Reason::BadKind.at(0)),
        Kind::RegisterStop => Err(Reason::BadKind.at(0)),
    }
}

// The entries of a message of asserts; 4 for the other kinds. The family becomes a const parameter here, so that the compiler makes each loop for each.
pub fn count_asserts(ipv6: bool, kind: Kind, m: &[u8]) -> Result<Counted, Refusal>
    ensures { counted result ≡ tallied length (asserts_body (family_of ipv6) kind m.now 4) }
{
    if ipv6 {
        return asserts::<true>(kind, m);
    }
    asserts::<false>(kind, m)
}

// Pairs, one at least, whose source may be 0 or not.
fn count_register<const IPV6: bool>(zero_allowed: bool, m: &[u8]) -> Result<Counted, Refusal>
    ensures { counted result ≡ tallied length (records (pair_record (family_of IPV6) zero_allowed) m.now 4) }
{
    if m.len() <= 4 {
        return Err(Reason::NoRecord.at(4));
    }
    count_to_end::<IPV6>(false, false, zero_allowed, m, 4)
}

// Pairs of either kind.
fn pairs<const IPV6: bool>(kind: Kind, m: &[u8]) -> Result<Counted, Refusal>
    ensures { counted result ≡ tallied length (pairs_body (family_of IPV6) kind m.now 4) }
{
    match kind {
        Kind::Hello => Err(Reason::BadKind.at(0)),
        Kind::Assert => Err(Reason::BadKind.at(0)),
        Kind::Simple => Err(Reason::BadKind.at(0)),
        Kind::Aggregated => Err(Reason::BadKind.at(0)),
        Kind::NullRegister => count_register::<IPV6>(false, m),
        Kind::RegisterStop => count_register::<IPV6>(true, m),
    }
}

// The entries of a message of pairs; 4 for the other kinds. The family becomes a const parameter as above.
pub fn count_pairs(ipv6: bool, kind: Kind, m: &[u8]) -> Result<Counted, Refusal>
    ensures { counted result ≡ tallied length (pairs_body (family_of ipv6) kind m.now 4) }
{
    if ipv6 {
        return pairs::<true>(kind, m);
    }
    pairs::<false>(kind, m)
}
