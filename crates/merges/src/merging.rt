// Attributes merged, and what was written read back. Our own values are an MTU of 1,500, flags S and P, 3 transit and 2 stub links,
// 100 Gbit/s as 1 times 10 to the 8 and 500 kbit/s as 500. Other contributors have equal speeds in other encodings.
ghost use Rattle.std.specs.Prelude.{◌≡◌, length};

use crate::output::read;
use popcount::Own;
use printing::{each_case, front, number, refused, text};

fn own() -> Own {
    Own {
        mtu: 1500,
        flags: 0x0011,
        transit: 3,
        stub: 2,
        minimum_speed: 8193,
        maximum_speed: 500,
    }
}

// What merging writes into a buffer, read back.
fn line(out: &impl Print, e: bool, contributors: &[u8], d: &mut [u8]) {
    match popcount::merge(own(), e, contributors, d) {
        Ok(n) => {
            number(out, b"length ", n as u64);
            text(out, b": ");
            read(out, d, 0);
        }
        Err(r) => {
            refused(out, r, b"\n");
        }
    }
}

// Octets pasted at a place: the place past them, or the place itself where they do not fit.
fn paste(d: &mut [u8], at: usize, s: &[u8]) -> usize
    ensures { length d.new ≡ length d.old }
{
    if d.len() < at {
        return at;
    }
    if d.len() - at < s.len() {
        return at;
    }
    d[at..at + s.len()].copy_from_slice(s);
    at + s.len()
}

// A contributor with all options so many times, then another one.
fn contributors(out: &impl Print, name: &[u8], n: usize, last: &[u8]) {
    let mut o = [0; 480];
    let mut at = 0;
    for _ in 0..n {
        at = paste(
            &mut o,
            at,
            b"\x03\x16\x05\x78\x00\x19\xff\x00\x00\x00\x00\x64\x00\x00\x00\xc8\x08\x05\x18\x64\x03\x07\x04\x02",
        );
    }
    let end = paste(&mut o, at, last);
    text(out, name);
    number(out, b", ", n as u64);
    text(out, b" others: ");
    let mut d = [0xee; 24];
    line(out, false, front(&o, end), &mut d);
}

fn each(out: &impl Print, name: &[u8], last: &[u8]) {
    contributors(out, name, 0, last);
    contributors(out, name, 1, last);
    contributors(out, name, 19, last);
}

// Every contributor of a table, alone and after others.
fn each_of(out: &impl Print, table: &[u8]) {
    each_case(table, &mut [0; 64], |name, o| each(out, name, o));
}

fn none(out: &impl Print) {
    let mut d = [0xee; 24];
    text(out, b"no contributor: ");
    line(out, false, b"", &mut d);
    text(out, b"no contributor, E: ");
    line(out, true, b"", &mut d);
}

// With all options, at the maxima, and with equal speeds in other encodings.
fn whole(out: &impl Print) {
    each_of(
        out,
        b"\
all options
031605780019ff0000000064000000c80805186403070402
the maxima
4316ffffffffff00ffffffffffffffffffffffffffffffff
other encodings
031623280013ff0000000001000000011864080501010901
",
    );
}

fn lacking(out: &impl Print) {
    each_of(
        out,
        b"\
without transit
0312051400067f00000000c80805186403070402
without stub
031205140006bf00000000640805186403070402
without least speed
031405140006df0000000064000000c8186403070402
without greatest speed
031405140006ef0000000064000000c8080503070402
without domain
031505140006f70000000064000000c808051864070402
without node
031505140006fb0000000064000000c808051864030402
without diameter
031505140006fd0000000064000000c808051864030702
without time zone
031505140006fe0000000064000000c808051864030704
",
    );
}

fn refusals(out: &impl Print) {
    let mut d = [0xee; 24];
    text(out, b"the second cut: ");
    line(
        out,
        false,
        b"\x03\x16\x05\x78\x00\x19\xff\x00\x00\x00\x00\x64\x00\x00\x00\xc8\x08\x05\x18\x64\x03\x07\x04\x02\x03\x16\x05\x78\x00\x19\xff\x00\x00\x00\x00\x64\x00\x00\x00\xc8\x08\x05\x18\x64\x03\x07\x04",
        &mut d,
    );
    text(out, b"the second of another type: ");
    line(
        out,
        false,
        b"\x03\x16\x05\x78\x00\x19\xff\x00\x00\x00\x00\x64\x00\x00\x00\xc8\x08\x05\x18\x64\x03\x07\x04\x02\x02\x16\x05\x78\x00\x19\xff\x00\x00\x00\x00\x64\x00\x00\x00\xc8\x08\x05\x18\x64\x03\x07\x04\x02",
        &mut d,
    );
    let mut small = [0xee; 23];
    text(out, b"room for 23 octets, no contributor: ");
    line(out, false, b"", &mut small);
    let mut less = [0xee; 21];
    text(out, b"room for 21 octets: ");
    line(out, false, b"", &mut less);
    text(out, b"room for 21 octets, and the contributor cut: ");
    line(out, false, b"\x03", &mut less);
}

pub(crate) fn run(out: &impl Print) {
    none(out);
    whole(out);
    lacking(out);
    refusals(out);
}
