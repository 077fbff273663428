// Which addresses a source may have. Messages, entries and sheets all ask `may_be_source`; where it is enough that most sources are passed,
// `begins_source`.
ghost use Rattle.std.specs.Prelude.{◌≡◌, true, false, ◌+◌, ◌≤◌, length};
ghost use Rattle.format.specs.Family.{family_of, may_be_source};
ghost use Rattle.addresses.specs.Addresses.{address_at, source_first};

use crate::address::is_zero_at;
use crate::family::{is_multicast, width};
use octets::number;

// Whether an address that begins with an octet is a source whatever follows: 1 to 223, in IPv6 1 to 254. These are nearly all.
pub fn begins_source(ipv6: bool, first: u8) -> bool
    ensures { result ≡ source_first ipv6 first }
{
    if first == 0 {
        return false;
    }
    if ipv6 {
        return first < 255;
    }
    first < 224
}

// Whether a source field may hold an IPv6 address that is no group: 0 where it is allowed.
fn sixteen_source(s: &[u8], at: usize, zero_allowed: bool) -> bool
    requires { (family_of true).is_group (address_at (family_of true) s.now at) ≡ false }
    ensures { result ≡ may_be_source (family_of true) zero_allowed (address_at (family_of true) s.now at) }
{
    if is_zero_at(s, at) {
        return zero_allowed;
    }
    true
}

// Whether it may hold an IPv4 address that is no group: not 255.255.255.255, and 0 where it is allowed.
fn four_source(s: &[u8], at: usize, zero_allowed: bool) -> bool
    requires { (at + 4 ≤ length s.now) × ((family_of false).is_group (address_at (family_of false) s.now at) ≡ false) }
    ensures { result ≡ may_be_source (family_of false) zero_allowed (address_at (family_of false) s.now at) }
{
    let a = number::<u32>(&s[at..at + 4], 0);
    if a == 0 {
        return zero_allowed;
    }
    a != 0xffff_ffff
}

// Whether it may hold any address that is there. In IPv4 the first octet decides, unless it is 0 or 255. These two are tested apart: joined in one
// test, or with every address read whole, sources from 240.0.0.0 on took longer to pass.
fn seldom_source(ipv6: bool, s: &[u8], at: usize, zero_allowed: bool) -> bool
    requires { at + (family_of ipv6).width ≤ length s.now }
    ensures { result ≡ may_be_source (family_of ipv6) zero_allowed (address_at (family_of ipv6) s.now at) }
{
    if is_multicast(ipv6, s[at]) {
        return false;
    }
    if ipv6 {
        return sixteen_source(s, at, zero_allowed);
    }
    if s[at] == 0 {
        return four_source(s, at, zero_allowed);
    }
    if s[at] == 255 {
        return four_source(s, at, zero_allowed);
    }
    true
}

// Whether a source field may hold the address at a place. An address that is not there whole is 0.
pub fn may_be_source(ipv6: bool, s: &[u8], at: usize, zero_allowed: bool) -> bool
    ensures { result ≡ may_be_source (family_of ipv6) zero_allowed (address_at (family_of ipv6) s.now at) }
{
    if s.len() < at {
        return zero_allowed;
    }
    if s.len() - at < width(ipv6) {
        return zero_allowed;
    }
    if begins_source(ipv6, s[at]) {
        return true;
    }
    seldom_source(ipv6, s, at, zero_allowed)
}
