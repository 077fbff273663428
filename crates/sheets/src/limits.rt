// Sheets with one count at a limit or over it, and sheets with other first words; all else of them is in order.
ghost use Rattle.std.specs.Prelude.{◌≤◌};

use crate::built::{build, family_of, room};
use crate::output::{checked, form_name};
use format::AddressFamily;
use octets::write;
use printing::{front, number, text};
use sections::Form;
use sheet::Counts;

// A sheet of a form with so many of each, checked.
fn sheet_of(out: &impl Print, form: Form, asserts: usize, pairs: usize, neighbours: usize)
    requires { (asserts ≤ 8193) × (pairs ≤ 8193) × (neighbours ≤ 65) }
{
    let mut o = room(0xee);
    let c = Counts {
        asserts,
        pairs,
        neighbours,
    };
    let s = build(form, c, &mut o);
    form_name(out, form);
    number(out, b", asserts ", asserts as u64);
    number(out, b" pairs ", pairs as u64);
    number(out, b" neighbours ", neighbours as u64);
    text(out, b": ");
    checked(out, family_of(form), front(&o, s.end));
}

// Each count at its limit, and over it.
fn limits(out: &impl Print, form: Form, entries: usize, rows: usize)
    requires { (entries ≤ 8192) × (rows ≤ 64) }
{
    sheet_of(out, form, entries, 0, 0);
    sheet_of(out, form, entries + 1, 0, 0);
    sheet_of(out, form, 0, entries, 0);
    sheet_of(out, form, 0, entries + 1, 0);
    sheet_of(out, form, 0, 0, rows);
    sheet_of(out, form, 0, 0, rows + 1);
}

// A sheet of the base form and 1,024 asserts, with a first word put in place of its count.
fn first_word(out: &impl Print, x: u16) {
    let mut o = room(0xee);
    let c = Counts {
        asserts: 1024,
        pairs: 0,
        neighbours: 0,
    };
    let s = build(Form::Base, c, &mut o);
    write::<u16>(&mut o, 0, x);
    number(out, b"base form, 1,024 asserts, first word ", x as u64);
    text(out, b": ");
    checked(out, AddressFamily::Ipv4, front(&o, s.end));
}

pub(crate) fn run(out: &impl Print) {
    limits(out, Form::Base, 1024, 16);
    sheet_of(out, Form::Large, 1025, 0, 0);
    sheet_of(out, Form::Large, 0, 1025, 0);
    sheet_of(out, Form::Large, 0, 0, 17);
    limits(out, Form::Large, 8192, 64);
    limits(out, Form::Ipv4, 8192, 64);
    limits(out, Form::Ipv6, 8192, 64);
    first_word(out, 1024);
    first_word(out, 1025);
    first_word(out, 65534);
    first_word(out, 65535);
}
