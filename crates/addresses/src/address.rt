// An address as a number in two halves, and as octets.
ghost use Rattle.std.specs.Prelude.{◌≡◌, eqb, ltb};
ghost use Rattle.octets.specs.Octets.{copied};
ghost use Rattle.format.specs.Family.{ipv4, ipv6, family_of};
ghost use Rattle.format.specs.Path.{number_of};
ghost use Rattle.addresses.specs.Addresses.{address_at, in_family};

use format::Address;
use octets::{copy, number, whole};

// The IPv4 address at a place, or 0 where it is not there whole. Of parts that are lent with their length the compiler knows that no octet is missing.
fn four_at(s: &[u8], at: usize) -> Address
    ensures { number_of result ≡ address_at ipv4 s.now at }
{
    if s.len() < at {
        return Address { high: 0, low: 0 };
    }
    if s.len() - at < 4 {
        return Address { high: 0, low: 0 };
    }
    Address {
        high: 0,
        low: whole::<u32>(&s[at..at + 4], 0) as u64,
    }
}

// The same for an IPv6 address.
fn sixteen_at(s: &[u8], at: usize) -> Address
    ensures { number_of result ≡ address_at ipv6 s.now at }
{
    if s.len() < at {
        return Address { high: 0, low: 0 };
    }
    if s.len() - at < 16 {
        return Address { high: 0, low: 0 };
    }
    Address {
        high: whole::<u64>(&s[at..at + 8], 0),
        low: whole::<u64>(&s[at + 8..at + 16], 0),
    }
}

// The address at a place, or 0 where it is not there whole.
pub fn address_at(ipv6: bool, s: &[u8], at: usize) -> Address
    ensures { number_of result ≡ address_at (family_of ipv6) s.now at }
{
    if ipv6 {
        return sixteen_at(s, at);
    }
    four_at(s, at)
}

// Addresses compare unsigned. `a < b` was tried, and `elect_among` took a tenth to a third more time.
pub fn is_below(a: Address, b: Address) -> bool
    ensures { result ≡ ltb (number_of a) (number_of b) }
{
    if a.high < b.high {
        return true;
    }
    if b.high < a.high {
        return false;
    }
    a.low < b.low
}

// Two addresses are one if both halves are.
pub fn is_same(a: Address, b: Address) -> bool
    ensures { result ≡ eqb (number_of a) (number_of b) }
{
    a == b
}

// Whether an address is one of a family: every one is an IPv6 address, and those below 2^32 are IPv4 addresses.
pub fn is_in_family(ipv6: bool, a: Address) -> bool
    ensures { result ≡ in_family (family_of ipv6) (number_of a) }
{
    if ipv6 {
        return true;
    }
    if a.high != 0 {
        return false;
    }
    a.low <= 0xffff_ffff
}

pub fn is_zero(a: Address) -> bool
    ensures { result ≡ eqb (number_of a) 0 }
{
    if a.high != 0 {
        return false;
    }
    a.low == 0
}

// Whether the IPv6 address at a place is 0, or is not there whole. It is seldom asked, and the compiler calls it: as part of the loops that ask for sources, with
// `address_at` in place of it, it made them too large to be made for each family.
pub fn is_zero_at(s: &[u8], at: usize) -> bool
    ensures { result ≡ eqb (address_at ipv6 s.now at) 0 }
{
    if s.len() < 16 {
        return true;
    }
    if s.len() - 16 < at {
        return true;
    }
    if number::<u32>(s, at) != 0 {
        return false;
    }
    if number::<u32>(s, at + 4) != 0 {
        return false;
    }
    if number::<u32>(s, at + 8) != 0 {
        return false;
    }
    number::<u32>(s, at + 12) == 0
}

// The octets of an address, from the start of one slice to the start of another. Lend parts of that length.
pub fn copy_address(ipv6: bool, s: &[u8], d: &mut [u8])
    ensures { d.new ≡ copied (family_of ipv6).width s.now d.old }
{
    if ipv6 {
        copy::<16>(s, d);
        return;
    }
    copy::<4>(s, d);
}
