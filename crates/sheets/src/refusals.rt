// What writing and reading a sheet refuse, in either family.
ghost use Rattle.std.specs.Prelude.{◌*◌, ◌≤◌, ◌<◌};

use crate::built::{family_of, header_size, room};
use crate::output::{family_name, form_name, found, other, stored};
use crate::small::{changed, size, small};
use crate::table::heard;
use format::{Address, AddressFamily};
use hello::Hello;
use neighbours::Table;
use printing::{each_case, front, number, text};
use sections::Form;

// The octets of so many asserts.
fn asserts_of(family: AddressFamily, n: usize) -> usize
    requires { n ≤ 8193 }
    ensures { (n ≤ result) × (result ≤ 44 * n) }
{
    match family {
        AddressFamily::Ipv4 => 20 * n,
        AddressFamily::Ipv6 => 44 * n,
    }
}

// And of so many pairs.
fn pairs_of(family: AddressFamily, n: usize) -> usize
    requires { n ≤ 8193 }
    ensures { (n ≤ result) × (result ≤ 36 * n) }
{
    match family {
        AddressFamily::Ipv4 => 12 * n,
        AddressFamily::Ipv6 => 36 * n,
    }
}

// Writing into so many octets, 72 at most: a sheet of one assert in IPv6.
fn write(
    out: &impl Print,
    family: AddressFamily,
    name: &[u8],
    asserts: &[u8],
    pairs: &[u8],
    table: Table,
    room: usize,
)
    requires { room ≤ 72 }
{
    let mut d = [0xee; 72];
    text(out, b"writing, ");
    family_name(out, family);
    text(out, b", ");
    text(out, name);
    text(out, b": ");
    stored(
        out,
        sheet::write_sheet(family, asserts, pairs, table, &mut d[..room]),
    );
}

// A table whose first row is not in use and not 0.
fn unused() -> Table {
    let mut t = Table::empty();
    t.rows[0].holdtime = 105;
    t
}

// A full table that says it has one row more.
fn over(family: AddressFamily) -> Table {
    let mut t = heard(family, 64);
    t.count = 65;
    t
}

// A table with one neighbour, which has an address of IPv6.
fn one_row(address: Address) -> Table {
    let said = Hello {
        holdtime: 105,
        has_priority: false,
        priority: 0,
        packing: false,
    };
    let heard = Table::empty().hear(AddressFamily::Ipv6, address, said);
    heard.table
}

fn empty_sheet(out: &impl Print, family: AddressFamily) {
    write(
        out,
        family,
        b"no entries into 27 octets",
        b"",
        b"",
        Table::empty(),
        27,
    );
    write(
        out,
        family,
        b"no entries into 28 octets",
        b"",
        b"",
        Table::empty(),
        28,
    );
}

// As many as a sheet holds, and one more; 1,025 asserts were too many for a sheet of the base form. All entries of e are of a family 232
// and have a multicast source, and 14 and 8 are found before that.
fn many(out: &impl Print, family: AddressFamily, e: &[u8]) {
    let none = Table::empty();
    let asserts = front(e, asserts_of(family, 8192));
    let pairs = front(e, pairs_of(family, 8192));
    let more = front(e, asserts_of(family, 1025));
    write(
        out,
        family,
        b"1,025 asserts and no room",
        more,
        b"",
        none,
        72,
    );
    write(
        out,
        family,
        b"8,192 asserts and no room",
        asserts,
        b"",
        none,
        72,
    );
    write(
        out,
        family,
        b"8,192 pairs and no room",
        b"",
        pairs,
        none,
        72,
    );
    write(
        out,
        family,
        b"64 neighbours and no room",
        b"",
        b"",
        heard(family, 64),
        72,
    );
}

fn too_many(out: &impl Print, family: AddressFamily, e: &[u8]) {
    let none = Table::empty();
    let asserts = front(e, asserts_of(family, 8193));
    let pairs = front(e, pairs_of(family, 8193));
    write(out, family, b"8,193 asserts", asserts, b"", none, 72);
    write(out, family, b"8,193 pairs", b"", pairs, none, 72);
}

// Room for all of a sheet of one assert but its last octet.
fn too_little(family: AddressFamily) -> usize
    ensures { result ≤ 72 }
{
    27 + asserts_of(family, 1)
}

// One such assert, with tables that are none, with an octet too many, and with too little room.
fn one_assert(out: &impl Print, family: AddressFamily) {
    let e = [0xe8; 45];
    let n = asserts_of(family, 1);
    let one = front(&e, n);
    write(
        out,
        family,
        b"an octet too many",
        front(&e, n + 1),
        b"",
        unused(),
        72,
    );
    write(
        out,
        family,
        b"a table with an unused row not 0",
        one,
        b"",
        unused(),
        72,
    );
    write(
        out,
        family,
        b"a table of 65 rows",
        one,
        b"",
        over(family),
        72,
    );
    write(
        out,
        family,
        b"an octet too little of room",
        one,
        b"",
        Table::empty(),
        too_little(family),
    );
}

// Tables of a neighbour fe80::1, and of ::1:0:0, which no address of 32 bits is.
fn rows(out: &impl Print, family: AddressFamily) {
    let far = Address {
        high: 0,
        low: 0x1_0000_0000,
    };
    write(
        out,
        family,
        b"a neighbour fe80::1",
        b"",
        b"",
        heard(AddressFamily::Ipv6, 1),
        72,
    );
    write(
        out,
        family,
        b"a neighbour ::1:0:0",
        b"",
        b"",
        one_row(far),
        72,
    );
}

// A list of one assert or of one pair, into room enough for it.
fn one_list(out: &impl Print, family: AddressFamily, name: &[u8], e: &[u8]) {
    if e.len() == pairs_of(family, 1) {
        write(out, family, name, b"", e, Table::empty(), 72);
        return;
    }
    write(out, family, name, e, b"", Table::empty(), 72);
}

// Such lists by name and octets.
fn each_list(out: &impl Print, family: AddressFamily, cases: &[u8]) {
    each_case(
        cases,
        &mut [0; 44],
        |name, e| one_list(out, family, name, e),
    );
}

fn lists_ipv4(out: &impl Print) {
    each_list(
        out,
        AddressFamily::Ipv4,
        b"\
an assert of 232.1.1.1 from 10.0.0.1
01000000 e8010101 0a000001 0000006e 00000014
an assert from 232.232.232.232
01000000 e8010101 e8e8e8e8 0000006e 00000014
an assert of no group
01000000 00000000 0a000001 0000006e 00000014
an assert of family 2
02000000 e8010101 0a000001 0000006e 00000014
an assert with 1 for the last zero octet
01000001 e8010101 0a000001 0000006e 00000014
a pair of 232.1.1.1 without a source
01000000 e8010101 00000000
a pair of family 2
02000000 e8010101 00000000
",
    );
}

fn lists_ipv6(out: &impl Print) {
    each_list(
        out,
        AddressFamily::Ipv6,
        b"\
an assert of ff3e::1 from 2001:db8::1
02000000 ff3e0000000000000000000000000001 20010db8000000000000000000000001 0000006e 00000014
an assert from ff02::d
02000000 ff3e0000000000000000000000000001 ff02000000000000000000000000000d 0000006e 00000014
an assert of no group
02000000 00000000000000000000000000000000 20010db8000000000000000000000001 0000006e 00000014
an assert of family 1
01000000 ff3e0000000000000000000000000001 20010db8000000000000000000000001 0000006e 00000014
an assert with 1 for the first zero octet
02010000 ff3e0000000000000000000000000001 20010db8000000000000000000000001 0000006e 00000014
a pair of ff3e::1 without a source
02000000 ff3e0000000000000000000000000001 00000000000000000000000000000000
a pair of family 1
01000000 ff3e0000000000000000000000000001 00000000000000000000000000000000
",
    );
}

// Reading a sheet, into so many octets for asserts and for pairs.
fn read(out: &impl Print, family: AddressFamily, o: &[u8], asserts: usize, pairs: usize)
    requires { (asserts ≤ 88) × (pairs ≤ 72) }
{
    let mut ea = [0; 88];
    let mut ep = [0; 72];
    let r = sheet::read_sheet(family, o, &mut ea[..asserts], &mut ep[..pairs]);
    let answer = r.found;
    let table = r.table;
    number(out, b": neighbours ", table.count as u64);
    text(out, b", ");
    found(out, answer);
}

fn name(out: &impl Print, form: Form, what: &[u8]) {
    text(out, b"reading, ");
    form_name(out, form);
    text(out, what);
}

// The small sheet read with exactly the room for its entries as they are given, with an octet less, as one of the other family, and damaged
// in its first entry.
fn reading(out: &impl Print, form: Form) {
    let family = family_of(form);
    let asserts = asserts_of(family, 2);
    let pairs = pairs_of(family, 2);
    let room = small(form);
    let o = front(&room, size(form));
    name(out, form, b", room for all");
    read(out, family, o, asserts, pairs);
    name(out, form, b", an octet less for asserts");
    read(out, family, o, asserts - 1, pairs);
    name(out, form, b", an octet less for pairs");
    read(out, family, o, asserts, pairs - 1);
    name(out, form, b" as one of the other family");
    read(out, other(family), o, 88, 72);
    name(out, form, b", a damaged sheet, and no room");
    let bad = changed(form, header_size(form), 9);
    read(out, family, front(&bad, size(form)), 0, 0);
}

fn writing(out: &impl Print, family: AddressFamily) {
    let e = room(0xe8);
    empty_sheet(out, family);
    many(out, family, &e);
    too_many(out, family, &e);
    one_assert(out, family);
    rows(out, family);
}

pub(crate) fn run(out: &impl Print) {
    writing(out, AddressFamily::Ipv4);
    lists_ipv4(out);
    writing(out, AddressFamily::Ipv6);
    lists_ipv6(out);
    reading(out, Form::Base);
    reading(out, Form::Large);
    reading(out, Form::Ipv4);
    reading(out, Form::Ipv6);
}
