// The election among the routers of a scenario, one of them our own or none, by the Hello that each sends. A router
// stands in the octets of its address and eight more: address, priority, 1 if it has a priority, a zero octet, holdtime.
ghost use Rattle.std.specs.Prelude.{◌+◌, ◌<◌, ◌≤◌, length};

use addresses::{address_at, width};
use format::{Address, AddressFamily, Path, Refusal, is_ipv6};
use hello::Hello;
use neighbours::Table;
use printing::front;

// How many octets a router has.
pub(crate) fn router_size(family: AddressFamily) -> usize
    ensures { (12 ≤ result) × (result ≤ 24) }
{
    width(is_ipv6(family)) + 8
}

// The address of the router at a place.
pub(crate) fn address(family: AddressFamily, m: &[u8], at: usize) -> Address {
    address_at(is_ipv6(family), m, at)
}

// Where the router at a place has what stands after its address.
fn rest(family: AddressFamily, m: &[u8], at: usize) -> usize
    requires { at < length m.now }
    ensures { result ≤ length m.now + 16 }
{
    at + width(is_ipv6(family))
}

// Whether the router at a place has a priority.
pub(crate) fn has_priority(family: AddressFamily, m: &[u8], at: usize) -> bool
    requires { at < length m.now }
{
    octets::number::<u8>(m, rest(family, m, at) + 4) == 1
}

fn priority(family: AddressFamily, m: &[u8], at: usize) -> u32
    requires { at < length m.now }
{
    octets::number::<u32>(m, rest(family, m, at))
}

// What the router at a place says.
fn said(family: AddressFamily, m: &[u8], at: usize) -> Hello
    requires { at < length m.now }
{
    Hello {
        holdtime: octets::number::<u16>(m, rest(family, m, at) + 6),
        has_priority: has_priority(family, m, at),
        priority: priority(family, m, at),
        packing: false,
    }
}

// A Hello goes from a router to all PIM routers: 224.0.0.13, ff02::d.
fn to_all(family: AddressFamily, source: Address) -> Path {
    let mut destination = Address {
        high: 0,
        low: 0xe000000d,
    };
    if is_ipv6(family) {
        destination = Address {
            high: 0xff02_0000_0000_0000,
            low: 0xd,
        };
    }
    Path {
        source,
        destination,
    }
}

// The table with the Hello of the router at a place, written, read again and heard; or the first refusal.
fn heard(family: AddressFamily, table: Table, m: &[u8], at: usize) -> Result<Table, Refusal>
    requires { at < length m.now }
{
    let from = address(family, m, at);
    let path = to_all(family, from);
    let mut d = [0; 22];
    let n = hello::write_hello(family, path, said(family, m, at), &mut d)?;
    let says = hello::read_hello(family, path, front(&d, n))?;
    let heard = table.hear(family, from, says);
    heard.change?;
    Ok(heard.table)
}

// Every other router is heard, then the router at a place elects; or the first refusal.
pub(crate) fn elected(family: AddressFamily, m: &[u8], own: usize) -> Result<Address, Refusal>
    requires { own < length m.now }
{
    let size = router_size(family);
    let mut table = Table::empty();
    for at in (0..m.len()).step_by(size) {
        if at != own {
            table = heard(family, table, m, at)?;
        }
    }
    table.elect(family, address(family, m, own), priority(family, m, own))
}

// Every router is heard, then the rows elect, without our own; or the first refusal.
pub(crate) fn elected_among(family: AddressFamily, m: &[u8]) -> Result<Address, Refusal> {
    let size = router_size(family);
    let mut table = Table::empty();
    for at in (0..m.len()).step_by(size) {
        table = heard(family, table, m, at)?;
    }
    neighbours::elect_rows(table.rows, table.count)
}
