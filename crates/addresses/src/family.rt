// What tells the two families apart, as numbers.
ghost use Rattle.std.specs.Prelude.{◌≡◌, ◌≤◌};
ghost use Rattle.format.specs.Family.{family_of, mask_length};
ghost use Rattle.format.specs.Entry.{front_size};
ghost use Rattle.format.specs.Packing.{least_limit};
ghost use Rattle.addresses.specs.Addresses.{group_first};

use format::LEAST_LIMIT;

// The octets of an address.
pub fn width(ipv6: bool) -> usize
    ensures { (result ≡ (family_of ipv6).width) × (4 ≤ result) × (result ≤ 16) }
{
    if ipv6 {
        return 16;
    }
    4
}

// The first octet of an encoded address.
pub fn family_number(ipv6: bool) -> u8
    ensures { result ≡ (family_of ipv6).family }
{
    if ipv6 {
        return 2;
    }
    1
}

// The octets that an entry begins with.
pub fn front_size(ipv6: bool) -> usize
    ensures { (result ≡ front_size (family_of ipv6)) × (result ≤ 4) }
{
    4
}

// A group's mask covers the whole address.
pub fn mask_length(ipv6: bool) -> u8
    ensures { result ≡ mask_length (family_of ipv6) }
{
    if ipv6 {
        return 128;
    }
    32
}

// The least limit of a packing call.
pub fn least_limit(ipv6: bool) -> usize
    ensures { result ≡ least_limit (family_of ipv6) }
{
    if ipv6 {
        return 62;
    }
    LEAST_LIMIT
}

// Whether an address that begins with an octet is a group: 224.0.0.0/4, ff00::/8.
pub fn is_multicast(ipv6: bool, first: u8) -> bool
    ensures { result ≡ group_first ipv6 first }
{
    if ipv6 {
        return first == 255;
    }
    first / 16 == 14
}
