// Sheets of one assert and one pair. Those of the base form are as they were stored while a source could be any address: those with a
// multicast source, or with 255.255.255.255, are refused now, and those beside them stay. In IPv6 the multicast addresses are ff00::/8, and
// no other is refused.
use crate::output::{checked, found};
use format::AddressFamily;
use printing::{each_case, text};

// A sheet checked, and read with room for both entries.
fn stored(out: &impl Print, family: AddressFamily, name: &[u8], o: &[u8]) {
    text(out, b"stored, ");
    text(out, name);
    text(out, b": ");
    checked(out, family, o);
    let mut asserts = [0; 44];
    let mut pairs = [0; 36];
    let r = sheet::read_sheet(family, o, &mut asserts, &mut pairs);
    let answer = r.found;
    text(out, b"  read: ");
    found(out, answer);
}

// Sheets by name and octets.
fn each(out: &impl Print, family: AddressFamily, cases: &[u8]) {
    each_case(cases, &mut [0; 108], |name, o| stored(out, family, name, o));
}

fn base(out: &impl Print) {
    each(
        out,
        AddressFamily::Ipv4,
        b"\
an assert from 224.0.0.0
0001000c0001001c00000024 e8010101e00000000000006e00000014 e80101020a000001
an assert with R=1 from 239.255.255.255
0001000c0001001c00000024 e8010101efffffff8000006e00000014 e80101020a000001
a pair from 232.1.1.1
0001000c0001001c00000024 e80101010a0000010000006e00000014 e8010102e8010101
a pair from 255.255.255.255
0001000c0001001c00000024 e80101010a0000010000006e00000014 e8010102ffffffff
an assert from 224.0.0.0, and an offset too low
0001000c0001001b00000024 e8010101e00000000000006e00000014 e80101020a000001
both from 240.0.0.1
0001000c0001001c00000024 e8010101f00000010000006e00000014 e8010102f0000001
from 223.255.255.255 and 255.255.255.254
0001000c0001001c00000024 e8010101dfffffff0000006e00000014 e8010102fffffffe
",
    );
}

fn ipv6(out: &impl Print) {
    each(
        out,
        AddressFamily::Ipv6,
        b"\
an assert from ff00::
ffff0004 000000010000001c 0000000100000048 000000000000006c \
02000000ff3e0000000000000000000000000001ff0000000000000000000000000000000000006e00000014 \
02000000ff3e000000000000000000000000000220010db8000000000000000000000001
a pair from ffff:...:ffff
ffff0004 000000010000001c 0000000100000048 000000000000006c \
02000000ff3e000000000000000000000000000120010db80000000000000000000000010000006e00000014 \
02000000ff3e0000000000000000000000000002ffffffffffffffffffffffffffffffff
from feff:ffff:... and ::ffff:ffff
ffff0004 000000010000001c 0000000100000048 000000000000006c \
02000000ff3e0000000000000000000000000001feffffffffffffffffffffffffffffff0000006e00000014 \
02000000ff3e0000000000000000000000000002000000000000000000000000ffffffff
",
    );
}

pub(crate) fn run(out: &impl Print) {
    base(out);
    ipv6(out);
}
