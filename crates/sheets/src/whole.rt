// Empty sheets and full ones of every form: checked, read, and written again from what was read, in the newest form of the family.
ghost use Rattle.std.specs.Prelude.{◌≤◌};

use crate::built::{build, family_of, newest, room};
use crate::output::{checked, form_name, found, other_checked, stored};
use crate::table::{heard, same_table};
use format::AddressFamily;
use neighbours::Table;
use printing::{flag, front, in_common, named, text};
use sections::{Form, Places};
use sheet::Counts;

// What follows the first n octets of a slice.
fn past(e: &[u8], n: usize) -> &[u8] {
    if e.len() < n {
        return front(e, 0);
    }
    &e[n..]
}

// A line goes on: whether two slices are the same.
fn same(out: &impl Print, name: &[u8], a: &[u8], b: &[u8]) {
    text(out, name);
    flag(out, a.len() == b.len() && in_common(a, b) == a.len());
}

// What was read, beside the sections of a sheet of the newest form and a table; and written again, beside that sheet.
fn held(
    out: &impl Print,
    family: AddressFamily,
    asserts: &[u8],
    pairs: &[u8],
    table: Table,
    new: &[u8],
    s: Places,
) {
    same(
        out,
        b"  the same asserts: ",
        front(past(new, s.asserts), asserts.len()),
        asserts,
    );
    same(
        out,
        b", pairs: ",
        front(past(new, s.pairs), pairs.len()),
        pairs,
    );
    text(out, b"\n  written again: ");
    let mut d = room(0xee);
    stored(
        out,
        sheet::write_sheet(family, asserts, pairs, table, &mut d),
    );
    same(out, b"  as built here: ", new, front(&d, new.len()));
    text(out, b"\n");
}

// A sheet checked and read, and what comes of it held to the sheet of the newest form and the table of so many
// neighbours.
fn again(out: &impl Print, family: AddressFamily, o: &[u8], new: &[u8], s: Places, rows: u32)
    requires { (s.asserts ≤ s.pairs) × (s.pairs ≤ s.rows) × (rows ≤ 64) }
{
    let a = s.pairs - s.asserts;
    let p = s.rows - s.pairs;
    let t = heard(family, rows);
    text(out, b"  checked: ");
    checked(out, family, o);
    other_checked(out, family, o);
    let mut asserts = room(0xee);
    let mut pairs = room(0xee);
    let read = sheet::read_sheet(family, o, &mut asserts, &mut pairs);
    let answer = read.found;
    let table = read.table;
    text(out, b"  read: ");
    found(out, answer);
    text(out, b"  the same table: ");
    flag(out, same_table(t, table));
    text(out, b"\n");
    held(
        out,
        family,
        front(&asserts, a),
        front(&pairs, p),
        table,
        new,
        s,
    );
}

// The sheet of a form, beside that of the newest form with the same entries.
fn renewed(out: &impl Print, form: Form, c: Counts, new: &[u8], s: Places)
    requires counts { (c.asserts ≤ 8192) × (c.pairs ≤ 8192) × (c.neighbours ≤ 64) }
    requires places { (s.asserts ≤ s.pairs) × (s.pairs ≤ s.rows) }
{
    let rows = c.neighbours as u32;
    let mut o = room(0);
    let places = build(form, c, &mut o);
    named(out, b", built: octets ", places.end as u64);
    again(out, family_of(form), front(&o, places.end), new, s, rows);
}

// So many of each.
fn tried(out: &impl Print, form: Form, c: Counts)
    requires { (c.asserts ≤ 8192) × (c.pairs ≤ 8192) × (c.neighbours ≤ 64) }
{
    let mut new = room(0);
    let s = build(newest(form), c, &mut new);
    renewed(out, form, c, front(&new, s.end), s);
}

fn empty(out: &impl Print, form: Form) {
    text(out, b"an empty sheet of ");
    form_name(out, form);
    let c = Counts {
        asserts: 0,
        pairs: 0,
        neighbours: 0,
    };
    tried(out, form, c);
}

fn full(out: &impl Print, form: Form, entries: usize, neighbours: usize)
    requires { (entries ≤ 8192) × (neighbours ≤ 64) }
{
    text(out, b"a full sheet of ");
    form_name(out, form);
    let c = Counts {
        asserts: entries,
        pairs: entries,
        neighbours,
    };
    tried(out, form, c);
}

pub(crate) fn run(out: &impl Print) {
    empty(out, Form::Base);
    empty(out, Form::Large);
    empty(out, Form::Ipv4);
    empty(out, Form::Ipv6);
    full(out, Form::Base, 1024, 16);
    full(out, Form::Large, 8192, 64);
    full(out, Form::Ipv4, 8192, 64);
    full(out, Form::Ipv6, 8192, 64);
}
