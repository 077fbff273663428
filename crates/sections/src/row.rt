// A neighbour's row in a sheet, read from its octets.
ghost use Rattle.std.specs.Prelude.{◌≡◌, ◌+◌, ◌≤◌, length};
ghost use Rattle.octets.specs.Octets.{number_at};
ghost use Rattle.format.specs.Family.{family_of};
ghost use Rattle.format.specs.Path.{number_of};
ghost use Rattle.addresses.specs.Addresses.{address_at};
ghost use Rattle.entries.specs.Kinds.{family_with};
ghost use Rattle.sections.specs.Layout.{row_size};
ghost use Rattle.sections.specs.Contents.{neighbour_at, row_at};

use addresses::{address_at, width};
use entries::front_by;
use format::Address;
use neighbours::Neighbour;
use octets::number;

// The octets of a row: its front, its address, and eight more.
pub fn row_size(ipv6: bool, prefixed: bool) -> usize
    ensures { (result ≡ row_size (family_with ipv6 prefixed)) × (result ≤ 28) }
{
    front_by(ipv6, prefixed) + width(ipv6) + 8
}

// The neighbour whose address stands at a place that is hardly past the end.
fn neighbour_at(ipv6: bool, o: &[u8], at: usize) -> Neighbour
    requires { at ≤ length o.now + 4 }
    ensures { result ≡ neighbour_at (family_of ipv6) o.now at }
{
    let past = at + width(ipv6);
    let flags = number::<u8>(o, past + 4);
    Neighbour {
        address: address_at(ipv6, o, at),
        priority: number::<u32>(o, past),
        has_priority: flags % 2 == 1,
        packs: flags / 2 % 2 == 1,
        holdtime: number::<u16>(o, past + 6),
    }
}

// The neighbour whose row is there whole, with its address read. Its numbers are lent as parts: no length is tested then.
pub(crate) fn neighbour_in(ipv6: bool, o: &[u8], at: usize, address: Address) -> Neighbour
    requires { (at + (family_of ipv6).width + 8 ≤ length o.now) × (number_of address ≡ address_at (family_of ipv6) o.now at) }
    ensures { result ≡ neighbour_at (family_of ipv6) o.now at }
{
    let past = at + width(ipv6);
    let bits = o[past + 4];
    Neighbour {
        address,
        priority: number::<u32>(&o[past..past + 4], 0),
        has_priority: bits % 2 == 1,
        packs: bits / 2 % 2 == 1,
        holdtime: number::<u16>(&o[past + 6..past + 8], 0),
    }
}

// A neighbour's row at a place, or what of it is there.
pub fn row_at(ipv6: bool, prefixed: bool, o: &[u8], at: usize) -> Neighbour
    ensures { result ≡ row_at (family_with ipv6 prefixed) o.now at }
{
    if o.len() < at {
        return neighbour_at(ipv6, o, o.len());
    }
    let place = at + front_by(ipv6, prefixed);
    if o.len() - at < row_size(ipv6, prefixed) {
        return neighbour_at(ipv6, o, place);
    }
    neighbour_in(ipv6, o, place, address_at(ipv6, o, place))
}
