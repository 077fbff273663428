// Calls in IPv6 that no scenario has: a neighbour heard again and forgotten, a full table, what is of the other family, address 0, and
// elections that the high halves of addresses decide.
use format::{Address, AddressFamily, Refusal, is_ipv6};
use hello::Hello;
use neighbours::{Change, Changed, ROWS, Table};
use printing::{flag, named, refused, text, told};

// fe80:: and a number.
fn local(n: u64) -> Address {
    Address {
        high: 0xfe80_0000_0000_0000,
        low: n,
    }
}

// What every neighbour says here.
fn announced() -> Hello {
    Hello {
        holdtime: 105,
        has_priority: true,
        priority: 1,
        packing: true,
    }
}

// The family that a call names.
fn table_of(out: &impl Print, family: AddressFamily) -> bool {
    if is_ipv6(family) {
        return text(out, b"IPv6, ");
    }
    text(out, b"IPv4, ")
}

// The family that a call names, the call, and the address that it is given, as IPv6 writes it.
fn call(out: &impl Print, family: AddressFamily, name: &[u8], a: Address) -> bool {
    table_of(out, family) && text(out, name) && printing::address(out, true, a) && text(out, b": ")
}

fn done(out: &impl Print, change: Result<Change, Refusal>) -> bool {
    match change {
        Ok(Change::Replaced) => text(out, b"replaced"),
        Ok(Change::Appended) => text(out, b"appended"),
        Ok(Change::Forgotten) => text(out, b"forgotten"),
        Err(r) => refused(out, r, b""),
    }
}

// What a call did, and how many rows are in use after it.
fn changed(out: &impl Print, err: &impl Print, c: Changed) -> Table {
    let written = done(out, c.change) && named(out, b", rows ", c.table.count as u64);
    told(err, written, b"the calls were");
    c.table
}

fn hear(
    out: &impl Print,
    err: &impl Print,
    table: Table,
    family: AddressFamily,
    a: Address,
) -> Table {
    let written = call(out, family, b"hear ", a);
    told(err, written, b"the calls were");
    changed(out, err, table.hear(family, a, announced()))
}

fn forget(
    out: &impl Print,
    err: &impl Print,
    table: Table,
    family: AddressFamily,
    a: Address,
) -> Table {
    let written = call(out, family, b"forget ", a);
    told(err, written, b"the calls were");
    changed(out, err, table.forget(family, a))
}

fn elect(out: &impl Print, err: &impl Print, table: Table, family: AddressFamily, a: Address) {
    let written = call(out, family, b"elect with our own ", a)
        && match table.elect(family, a, 1) {
            Ok(a) => printing::address(out, true, a) && text(out, b"\n"),
            Err(r) => refused(out, r, b"\n"),
        };
    told(err, written, b"the calls were");
}

fn packing_allowed(out: &impl Print, err: &impl Print, table: Table, family: AddressFamily) {
    let written = table_of(out, family)
        && text(out, b"packing allowed: ")
        && match table.packing_allowed(family) {
            Ok(b) => flag(out, b) && text(out, b"\n"),
            Err(r) => refused(out, r, b"\n"),
        };
    told(err, written, b"the calls were");
}

// A table of fe80::1 and the numbers after it, all its rows in use.
fn full() -> Table {
    let mut table = Table::empty();
    for n in 1..=ROWS {
        let heard = table.hear(AddressFamily::Ipv6, local(n as u64), announced());
        table = heard.table;
    }
    table
}

// Neighbours come and go; then what is refused.
fn few(out: &impl Print, err: &impl Print) {
    let six = AddressFamily::Ipv6;
    let one = hear(out, err, Table::empty(), six, local(1));
    let two = hear(out, err, one, six, local(2));
    let again = hear(out, err, two, six, local(1));
    let left = forget(out, err, again, six, local(1));
    let still = forget(out, err, left, six, local(1));
    let zero = Address { high: 0, low: 0 };
    let same = hear(out, err, still, six, zero);
    elect(out, err, same, AddressFamily::Ipv4, zero);
    packing_allowed(out, err, same, AddressFamily::Ipv4);
    let none = hear(out, err, Table::empty(), AddressFamily::Ipv4, local(1));
    let past = Address {
        high: 0,
        low: 0x1_0000_0000,
    };
    hear(out, err, none, AddressFamily::Ipv4, past);
}

// A full table; and our own address below and above it by the high half alone.
fn many(out: &impl Print, err: &impl Print) {
    let six = AddressFamily::Ipv6;
    let table = hear(out, err, full(), six, local(64));
    hear(out, err, table, six, local(65));
    packing_allowed(out, err, table, six);
    elect(
        out,
        err,
        table,
        six,
        Address {
            high: 0x2001_0db8_0000_0000,
            low: 0xffff,
        },
    );
    elect(
        out,
        err,
        table,
        six,
        Address {
            high: 0xfe80_0000_0000_0001,
            low: 1,
        },
    );
}

pub(crate) fn run(out: &impl Print, err: &impl Print) {
    few(out, err);
    many(out, err);
}
