// Assert records and pairs that are there whole: how many of them, from a place on, are allowed. Only their form is
// tested; which refusal the first that is not allowed comes to is for the checks field by field.
ghost use Rattle.std.specs.Prelude.{◌≡◌, true, cond, ◌+◌, ◌/◌, ◌≤◌, length};
ghost use Rattle.octets.specs.Octets.{number_at};
ghost use Rattle.records.specs.Records.{r_bit};
ghost use Rattle.format.specs.Family.{family_of};
ghost use Rattle.counting.specs.Counts.{whole_in, record_size, record_form, allowed_records};

use addresses::width;
use fields::{is_group, is_source};
use format::r_bit;
use octets::number;

// The octets of an assert record, or of a pair.
pub(crate) fn record_size(ipv6: bool, is_assert: bool) -> usize
    ensures { result ≡ record_size (family_of ipv6) is_assert }
{
    if is_assert {
        return 2 * width(ipv6) + 14;
    }
    2 * width(ipv6) + 6
}

// How many records so many octets hold; each size is divided by as a literal.
fn records_in(ipv6: bool, is_assert: bool, octets: usize) -> usize
    ensures { result ≡ octets / record_size (family_of ipv6) is_assert }
{
    if ipv6 {
        if is_assert {
            return octets / 46;
        }
        return octets / 38;
    }
    if is_assert {
        return octets / 22;
    }
    octets / 14
}

// Whether the source of a record that is there may be 0: of an assert, where R is set.
fn may_be_zero(m: &[u8], word: usize, is_assert: bool, zero_allowed: bool) -> bool
    requires { is_assert ≡ true → word + 4 ≤ length m.now }
    ensures { result ≡ cond is_assert (r_bit (number_at 4 m.now word)) zero_allowed }
{
    if is_assert {
        return r_bit(number::<u32>(&m[word..word + 4], 0));
    }
    zero_allowed
}

// Whether a record that is there is allowed.
fn record_allowed(ipv6: bool, m: &[u8], at: usize, is_assert: bool, zero_allowed: bool) -> bool
    requires { at + record_size (family_of ipv6) is_assert ≤ length m.now }
    ensures { result ≡ record_form (family_of ipv6) is_assert zero_allowed m.now at }
{
    let source = at + (width(ipv6) + 4);
    let word = at + (2 * width(ipv6) + 6);
    if is_group(ipv6, &m[at..source]) {
        return is_source(
            ipv6,
            &m[source..word],
            may_be_zero(m, word, is_assert, zero_allowed),
        );
    }
    false
}

// How many of the records that are there whole stand before the first that is not allowed.
pub(crate) fn allowed_records<const IPV6: bool>(
    m: &[u8],
    from: usize,
    is_assert: bool,
    zero_allowed: bool,
) -> usize
    requires { from ≤ length m.now }
    ensures { result ≡ allowed_records (family_of IPV6) is_assert zero_allowed (whole_in (record_size (family_of IPV6) is_assert) m.now from) m.now from }
{
    let whole = records_in(IPV6, is_assert, m.len() - from);
    let mut at = from;
    for i in 0..whole {
        if !record_allowed(IPV6, m, at, is_assert, zero_allowed) {
            return i;
        }
        at += record_size(IPV6, is_assert);
    }
    whole
}
