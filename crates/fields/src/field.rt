// Fields of either family: whether the octets of one are allowed. A check finds the place past a field that is there
// whole and allowed, or the refusal, at the field's own place.
ghost use Rattle.std.specs.Prelude.{◌≡◌, ◌&&◌, ◌≤◌, eqb, length, get_or};
ghost use Rattle.records.specs.Sizes.{group_size, source_size};
ghost use Rattle.format.specs.Reader.{octets};
ghost use Rattle.format.specs.Family.{family_of};
ghost use Rattle.format.specs.Address.{group_form, group_field, source_form, source_field};
ghost use Rattle.fields.specs.Answers.{checked, skipped};
ghost use Rattle.fields.specs.Encoded.{address_size, address_form, address_field};

use addresses::{begins_source, family_number, is_multicast, mask_length, may_be_source, width};
use format::{Reason, Refusal};

// k octets are there. It makes the test of `octets::skip` itself, since it stands in the loops over records: over that
// answer the compiler calls a record's check and does not put it into the loop.
pub fn octets_check(m: &[u8], at: usize, k: usize) -> Result<usize, Refusal>
    ensures { checked result ≡ skipped (octets k m.now at) }
{
    if m.len() < at {
        return Err(Reason::Cut.at(at));
    }
    if m.len() - at < k {
        return Err(Reason::Cut.at(at));
    }
    Ok(at + k)
}

// Whether octets begin as every encoded address of a family does, with the family and 00 for its native encoding. Both are tested as one
// number, the first octet the low one, as the machine has them: so the compiler compares two octets at once.
fn is_native(ipv6: bool, x: &[u8]) -> bool
    requires { 2 ≤ length x.now }
    ensures { result ≡ (eqb (get_or x.now 0 0) (family_of ipv6).family && eqb (get_or x.now 1 0) 0) }
{
    (x[0] as usize) + (x[1] as usize) * 256 == family_number(ipv6) as usize
}

// The octets of a group that is allowed: the family, 00, a flags octet, the mask length, a multicast address.
pub fn is_group(ipv6: bool, g: &[u8]) -> bool
    ensures { result ≡ (eqb (length g.now) (group_size (family_of ipv6).width) && group_form (family_of ipv6) g.now) }
{
    if g.len() != width(ipv6) + 4 {
        return false;
    }
    if !is_native(ipv6, g) {
        return false;
    }
    if g[3] != mask_length(ipv6) {
        return false;
    }
    is_multicast(ipv6, g[4])
}

// The octets of a source that is allowed: the family, 00, an address, which may be 0 where the record allows it.
pub fn is_source(ipv6: bool, s: &[u8], zero_allowed: bool) -> bool
    ensures { result ≡ (eqb (length s.now) (source_size (family_of ipv6).width) && source_form (family_of ipv6) zero_allowed s.now) }
{
    if s.len() != width(ipv6) + 2 {
        return false;
    }
    if !is_native(ipv6, s) {
        return false;
    }
    // Nearly all are passed by their first octet, so it is asked first.
    if begins_source(ipv6, s[2]) {
        return true;
    }
    may_be_source(ipv6, s, 2, zero_allowed)
}

// The octets of a group, or of a source.
pub fn address_size(ipv6: bool, is_group: bool) -> usize
    ensures { (result ≡ address_size (family_of ipv6) is_group) × (6 ≤ result) × (result ≤ 20) }
{
    if is_group {
        return width(ipv6) + 4;
    }
    width(ipv6) + 2
}

// Whether octets are those of a group, or of a source, that is allowed.
pub fn is_address(ipv6: bool, is_group: bool, x: &[u8], zero_allowed: bool) -> bool
    ensures { result ≡ (eqb (length x.now) (address_size (family_of ipv6) is_group) && address_form (family_of ipv6) is_group zero_allowed x.now) }
{
    if is_group {
        return crate::field::is_group(ipv6, x);
    }
    is_source(ipv6, x, zero_allowed)
}

// A group, or a source, is there and allowed.
fn address_check(
    ipv6: bool,
    is_group: bool,
    m: &[u8],
    at: usize,
    zero_allowed: bool,
) -> Result<usize, Refusal>
    ensures { checked result ≡ skipped (address_field (family_of ipv6) is_group zero_allowed m.now at) }
{
    let f = octets_check(m, at, address_size(ipv6, is_group));
    let Ok(next) = f else {
        return f;
    };
    if is_address(ipv6, is_group, &m[at..next], zero_allowed) {
        return Ok(next);
    }
    Err(Reason::BadAddress.at(at))
}

// A group.
pub fn group_check(ipv6: bool, m: &[u8], at: usize) -> Result<usize, Refusal>
    ensures { checked result ≡ skipped (group_field (family_of ipv6) m.now at) }
{
    address_check(ipv6, true, m, at, false)
}

// A source.
pub fn source_check(ipv6: bool, m: &[u8], at: usize, zero_allowed: bool) -> Result<usize, Refusal>
    ensures { checked result ≡ skipped (source_field (family_of ipv6) zero_allowed m.now at) }
{
    address_check(ipv6, false, m, at, zero_allowed)
}
