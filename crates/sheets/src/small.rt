// A sheet of two asserts, two pairs and two neighbours, in every form. Each fault is one octet changed; then the sheet is cut at every
// octet.
ghost use Rattle.std.specs.Prelude.{◌≤◌};

use crate::built::{family_of, header_size};
use crate::output::{checked, form_name, other_checked};
use format::{AddressFamily, Reason};
use printing::{front, hexadecimal, named, number, text};
use sections::Form;

// Room for the sheet of any form.
const ROOM: usize = 244;

// How many octets the sheet has.
pub(crate) fn size(form: Form) -> usize
    ensures { result ≤ 244 }
{
    match form {
        Form::Base => 84,
        Form::Large => 100,
        Form::Ipv4 => 124,
        Form::Ipv6 => 244,
    }
}

// The header: in every form the counts are two each.
fn put_header(form: Form, d: &mut [u8]) {
    match form {
        Form::Base => hexadecimal(b"0002000c 0002002c 0002003c", d),
        Form::Large => hexadecimal(
            b"ffff0002 000000020000001c 000000020000003c 000000020000004c",
            d,
        ),
        Form::Ipv4 => hexadecimal(
            b"ffff0003 000000020000001c 0000000200000044 000000020000005c",
            d,
        ),
        Form::Ipv6 => hexadecimal(
            b"ffff0004 000000020000001c 0000000200000074 00000002000000bc",
            d,
        ),
    };
}

// The asserts, the pairs, the neighbours, as both older forms have them.
fn put_older(d: &mut [u8]) -> usize {
    hexadecimal(
        b"\
e80101010a0000000000006e00000014 e8010102000000008000006e00000014 e80101030a000000 e801010400000000 \
0a0000000000000503000069 0b000000000000000200001e",
        d,
    )
}

// And those of the two families.
fn put_sections(form: Form, d: &mut [u8]) {
    match form {
        Form::Base | Form::Large => put_older(d),
        Form::Ipv4 => hexadecimal(
            b"\
01000000e80101010a0000000000006e00000014 01000000e8010102000000008000006e00000014 \
01000000e80101030a000000 01000000e801010400000000 \
010000000a0000000000000503000069 010000000b000000000000000200001e",
            d,
        ),
        Form::Ipv6 => hexadecimal(
            b"\
02000000ff3e00000000000000000000e8010101200000000000000000000000000000000000006e00000014 \
02000000ff3e00000000000000000000e8010102000000000000000000000000000000008000006e00000014 \
02000000ff3e00000000000000000000e801010300000000000000000000000000000007 \
02000000ff3e00000000000000000000e801010400000000000000000000000000000000 \
02000000fe0000000000000000000000000000000000000503000069 \
02000000fe000000000000000000000000000001000000000200001e",
            d,
        ),
    };
}

// The sheet, at the front of its room.
pub(crate) fn small(form: Form) -> [u8; ROOM] {
    let mut o = [0; ROOM];
    put_header(form, &mut o);
    let first = header_size(form);
    put_sections(form, &mut o[first..]);
    o
}

// The sheet with one octet changed, where there is that octet.
pub(crate) fn changed(form: Form, at: usize, x: u8) -> [u8; ROOM] {
    let mut o = small(form);
    if at < ROOM {
        o[at] = x;
    }
    o
}

// A change, at a place counted from another.
fn change(out: &impl Print, form: Form, from: usize, past: u8, x: u8)
    requires { from ≤ 28 }
{
    let at = from + past as usize;
    number(out, b"octet ", at as u64);
    number(out, b" is ", x as u64);
    text(out, b": ");
    let o = changed(form, at, x);
    checked(out, family_of(form), front(&o, size(form)));
}

// Changes of two octets each: a place, and the octet there.
fn each(out: &impl Print, form: Form, from: usize, all: &[u8])
    requires { from ≤ 28 }
{
    for i in 0..all.len() / 2 {
        change(out, form, from, all[2 * i], all[2 * i + 1]);
    }
}

// Changes in hexadecimal, 32 at most.
fn changes(out: &impl Print, form: Form, from: usize, list: &[u8])
    requires { from ≤ 28 }
{
    let mut all = [0; 64];
    let n = hexadecimal(list, &mut all);
    each(out, form, from, front(&all, n));
}

// Of a header of 32-bit numbers, whatever the form: other first words (0xFEFF, 0xFFFE, 0x04FF, and 0x00FF as of a sheet of the base form)
// and numbers (0, 1, 5, and one with a high octet); each count too large, too small, over its limit and by its high octet; offsets by their
// high octets, and the first past its section, before it, as 24 and as 12.
fn of_numbers(out: &impl Print, form: Form) {
    changes(
        out,
        form,
        0,
        b"\
00fe 01fe 0004 0000 0300 0301 0305 0201 \
0703 0701 0620 0401 0b1d 0b1b 0b18 0b0c 0801 \
0f03 0f01 0e20 0c01 1001 \
1703 1701 1741 1401 1801",
    );
}

// Of the header of the base form: counts over the limit and against the end, offsets before and past their section. Of the others also the
// numbers of the other forms, and the second and third offset past their sections and before them.
fn of_header(out: &impl Print, form: Form) {
    match form {
        Form::Base => changes(
            out,
            form,
            0,
            b"0103 0004 030d 0503 0404 072d 0901 0911 0b3d 0b3b",
        ),
        Form::Large => {
            of_numbers(out, form);
            changes(out, form, 0, b"0303 0304 133d 133b 1b4d 1b4b");
        }
        Form::Ipv4 => {
            of_numbers(out, form);
            changes(out, form, 0, b"0302 0304 1345 1343 1b5d 1b5b");
        }
        Form::Ipv6 => {
            of_numbers(out, form);
            changes(out, form, 0, b"0302 0303 1375 1373 1bbd 1bbb");
        }
    }
}

// Of the entries, counted from the first one: groups, source 0 with R=0, the R bit, source 0 of a pair and priority 0 (both allowed),
// address 0, flags, a priority without its flag, the zero octet, an address twice, holdtime 0. In the newest forms also the family and the
// three zero octets before each.
fn of_entries(out: &impl Print, form: Form) {
    let older = b"00df 0400 10f0 1800 20c8 2400 28ff 3000 3700 3804 3802 3901 3c0a 4001 4501 4700";
    let first = header_size(form);
    match form {
        Form::Base | Form::Large => changes(out, form, first, older),
        Form::Ipv4 => changes(
            out,
            form,
            first,
            b"\
04df 0800 18f0 2000 2cc8 3000 38ff 4400 4b00 4c04 4c02 4d01 540a 5801 5d01 5f00 \
0002 0000 0101 0201 0301 1402 1701 2802 2b01 3402 4002 4301 5002 5101",
        ),
        Form::Ipv6 => changes(
            out,
            form,
            first,
            b"\
04fe 1400 14ff 30fe 5000 5c00 7b00 800a a400 b700 b804 b802 b901 cf00 d001 d501 d700 \
0001 0000 0101 0201 0301 2c01 2f01 5801 5b01 7c01 a001 a301 bc01 bd01",
        ),
    }
}

// 1 if a sheet is refused by 14 at place 0, else 0.
fn refused_at_start(family: AddressFamily, o: &[u8]) -> usize
    ensures { result ≤ 1 }
{
    match sheet::check_sheet(family, o) {
        Err(r) if r.reason == Reason::BadSheet && r.place == 0 => 1,
        _ => 0,
    }
}

// How many of the sheet's beginnings are refused so.
fn cuts(out: &impl Print, form: Form) {
    let o = small(form);
    let n = size(form);
    let mut refused = 0;
    for i in 0..n {
        refused += refused_at_start(family_of(form), front(&o, i));
    }
    number(out, b"cut at ", n as u64);
    named(out, b" places, refused 14 at 0: ", refused as u64);
}

fn tried(out: &impl Print, form: Form) {
    text(out, b"small, ");
    form_name(out, form);
    text(out, b": ");
    let o = small(form);
    let sheet = front(&o, size(form));
    checked(out, family_of(form), sheet);
    other_checked(out, family_of(form), sheet);
    of_header(out, form);
    of_entries(out, form);
    cuts(out, form);
}

pub(crate) fn run(out: &impl Print) {
    tried(out, Form::Base);
    tried(out, Form::Large);
    tried(out, Form::Ipv4);
    tried(out, Form::Ipv6);
}
