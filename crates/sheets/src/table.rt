// Neighbours heard one after another, in either family: as many as a table holds, and one more; and whether two tables are the same.
ghost use Rattle.std.specs.Prelude.{◌≤◌};

use crate::built::neighbour;
use crate::output::{done, family_name};
use format::{AddressFamily, is_ipv6};
use hello::Hello;
use neighbours::{Changed, Neighbour, ROWS, Table};
use printing::{flag, named, text};

// Neighbour i heard: every other one announced a priority, every fourth packs.
fn hear(family: AddressFamily, t: Table, i: u32) -> Changed
    requires { i ≤ 64 }
{
    let said = Hello {
        holdtime: 105,
        has_priority: i % 2 == 0,
        priority: i,
        packing: i % 4 == 0,
    };
    t.hear(family, neighbour(is_ipv6(family), i), said)
}

// The first so many neighbours.
pub(crate) fn heard(family: AddressFamily, rows: u32) -> Table
    requires { rows ≤ 64 }
{
    let mut t = Table::empty();
    for i in 0..rows {
        let heard = hear(family, t, i);
        t = heard.table;
    }
    t
}

fn same_row(a: Neighbour, b: Neighbour) -> bool {
    addresses::is_same(a.address, b.address)
        && a.priority == b.priority
        && a.has_priority == b.has_priority
        && a.packs == b.packs
        && a.holdtime == b.holdtime
}

// Whether two tables are the same, in the rows not in use too.
pub(crate) fn same_table(a: Table, b: Table) -> bool {
    for i in 0..ROWS {
        if !same_row(a.rows[i], b.rows[i]) {
            return false;
        }
    }
    a.count == b.count
}

// What was done, and how many rows are in use now: the table.
fn after(out: &impl Print, name: &[u8], c: Changed) -> Table {
    text(out, name);
    done(out, c.change);
    named(out, b", neighbours ", c.table.count as u64);
    c.table
}

// A 65th is refused until one of the 64 is forgotten; then there is no room for that one.
fn filled(out: &impl Print, family: AddressFamily) {
    let full = heard(family, 64);
    family_name(out, family);
    named(out, b", 64 heard: neighbours ", full.count as u64);
    let kept = after(out, b"a 65th heard: ", hear(family, full, 64));
    text(out, b"  the table as it was: ");
    flag(out, same_table(full, kept));
    text(out, b"\n");
    let gone = neighbour(is_ipv6(family), 20);
    let less = after(out, b"the 21st forgotten: ", kept.forget(family, gone));
    let again = after(out, b"the 65th heard: ", hear(family, less, 64));
    after(out, b"the 22nd heard again: ", hear(family, again, 21));
    after(out, b"the 21st heard: ", hear(family, again, 20));
}

pub(crate) fn run(out: &impl Print) {
    filled(out, AddressFamily::Ipv4);
    filled(out, AddressFamily::Ipv6);
}
