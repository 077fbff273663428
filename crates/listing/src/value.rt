// The numbers of an entry.
ghost use Rattle.std.specs.Prelude.{◌≡◌, false, cond, ◌+◌, ◌≤◌, length};
ghost use Rattle.records.specs.Records.{r_bit, preference as preference_of};
ghost use Rattle.format.specs.Family.{family_of};
ghost use Rattle.format.specs.Entry.{assert_entries, pair_entries};
ghost use Rattle.format.specs.Values.{assert_of, pair_of};

use addresses::{address_at, front_size, width};
use format::{AssertFields, PairFields, r_bit};
use octets::number;

// The octets of an assert's entry: 20 in IPv4, 44 in IPv6.
pub(crate) fn assert_size(ipv6: bool) -> usize
    ensures { (result ≡ (assert_entries (family_of ipv6)).size) × (result ≤ 44) }
{
    front_size(ipv6) + 2 * width(ipv6) + 8
}

// The octets of a pair's entry: 12 in IPv4, 36 in IPv6.
pub(crate) fn pair_size(ipv6: bool) -> usize
    ensures { (result ≡ (pair_entries (family_of ipv6) false).size) × (result ≤ 36) }
{
    front_size(ipv6) + 2 * width(ipv6)
}

// The assert of the entry at a place.
pub(crate) fn assert_at(ipv6: bool, e: &[u8], at: usize) -> AssertFields
    requires { at + (assert_entries (family_of ipv6)).size ≤ length e.now }
    ensures { assert_of result ≡ (assert_entries (family_of ipv6)).entry_at e.now at }
{
    let w = width(ipv6);
    let group_at = at + front_size(ipv6);
    AssertFields {
        group: address_at(ipv6, e, group_at),
        source: address_at(ipv6, e, group_at + w),
        r_preference: number::<u32>(e, group_at + 2 * w),
        metric: number::<u32>(e, group_at + 2 * w + 4),
    }
}

// The pair of the entry at a place. Which sources are allowed was asked when it was read.
pub(crate) fn pair_at(ipv6: bool, e: &[u8], at: usize) -> PairFields
    requires { at + (pair_entries (family_of ipv6) false).size ≤ length e.now }
    ensures { pair_of result ≡ (pair_entries (family_of ipv6) false).entry_at e.now at }
{
    let group_at = at + front_size(ipv6);
    PairFields {
        group: address_at(ipv6, e, group_at),
        source: address_at(ipv6, e, group_at + width(ipv6)),
    }
}

// R of an R word, as a number.
pub(crate) fn r_number(w: u32) -> u64
    ensures { result ≡ cond (r_bit w) 1 0 }
{
    if r_bit(w) {
        return 1;
    }
    0
}

// The metric preference of an R word, the 31 bits below.
pub(crate) fn preference(w: u32) -> u64
    ensures { result ≡ preference_of w }
{
    (w % 0x8000_0000) as u64
}
