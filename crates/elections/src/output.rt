// A line for each election of a scenario. Each function that writes a part of a line answers whether all of it was
// written, and stops at the first write that failed.
ghost use Rattle.std.specs.Prelude.{◌<◌, length};

use crate::election::{address, elected, elected_among, has_priority, router_size};
use addresses::{is_same, width};
use format::{Address, AddressFamily, Refusal, is_ipv6};
use printing::{each_case, front, refused, text, told};

// The address elected, beside the one observed.
fn compared(out: &impl Print, family: AddressFamily, a: Address, observed: Address) -> bool {
    if is_same(a, observed) {
        return printing::address(out, is_ipv6(family), a) && text(out, b", agrees\n");
    }
    printing::address(out, is_ipv6(family), a)
        && text(out, b", differs, observed ")
        && printing::address(out, is_ipv6(family), observed)
        && text(out, b"\n")
}

fn answer(
    out: &impl Print,
    family: AddressFamily,
    e: Result<Address, Refusal>,
    observed: Address,
) -> bool {
    match e {
        Ok(a) => compared(out, family, a, observed),
        Err(r) => refused(out, r, b"\n"),
    }
}

// The election with the router at a place as our own. Our own always has a priority: one without is left out.
fn line(
    out: &impl Print,
    family: AddressFamily,
    name: &[u8],
    m: &[u8],
    own: usize,
    observed: Address,
) -> bool
    requires { own < length m.now }
{
    if has_priority(family, m, own) {
        return text(out, name)
            && text(out, b", our own ")
            && printing::address(out, is_ipv6(family), address(family, m, own))
            && text(out, b": ")
            && answer(out, family, elected(family, m, own), observed);
    }
    true
}

// The election among all routers, each of them a row.
fn rows_line(
    out: &impl Print,
    family: AddressFamily,
    name: &[u8],
    m: &[u8],
    observed: Address,
) -> bool {
    text(out, name)
        && text(out, b", among the rows: ")
        && answer(out, family, elected_among(family, m), observed)
}

fn lines(
    out: &impl Print,
    family: AddressFamily,
    name: &[u8],
    m: &[u8],
    observed: Address,
) -> bool {
    let size = router_size(family);
    if m.len() <= size {
        return text(out, name) && text(out, b": fewer than two routers\n");
    }
    line(out, family, name, m, m.len() - size, observed)
        && line(out, family, name, m, 0, observed)
        && rows_line(out, family, name, m, observed)
}

// How many octets stand before the last address.
fn before_address(family: AddressFamily, o: &[u8]) -> usize {
    let last = width(is_ipv6(family));
    if o.len() < last {
        return 0;
    }
    o.len() - last
}

// A scenario: its name, then its routers and the address that was observed to be elected. Where standard output takes no more,
// standard error says so.
fn show(out: &impl Print, err: &impl Print, family: AddressFamily, name: &[u8], o: &[u8]) {
    let routers = before_address(family, o);
    let observed = address(family, o, routers);
    let written = lines(out, family, name, front(o, routers), observed);
    told(err, written, b"the elections were");
}

pub(crate) fn show_all(out: &impl Print, err: &impl Print, family: AddressFamily, table: &[u8]) {
    each_case(table, &mut [0; 256], |name, o| {
        show(out, err, family, name, o);
    });
}
