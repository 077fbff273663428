// Link speeds compared: a line for each, with how it stands to every one of them, < = or >.
use printing::{number, text};
use std::cmp::Ordering;

// The six rows of RFC 6807, 3.1.1 (500 kbit/s twice, 155 Mbit/s, 40 Gbit/s, 100 Gbit/s twice), then 0 as two encodings, 1 kbit/s,
// the largest significand with exponents 0, 3 and 63, and 1 with exponent 63.
const SPEEDS: [u16; 13] = [
    500, 2053, 3227, 6184, 6244, 8193, 0, 64512, 1, 1023, 4095, 65535, 64513,
];

fn compared(out: &impl Print, a: u16, b: u16) -> bool {
    match popcount::compare_speeds(a, b) {
        Ordering::Less => text(out, b" <"),
        Ordering::Equal => text(out, b" ="),
        Ordering::Greater => text(out, b" >"),
    }
}

fn line(out: &impl Print, a: u16) {
    number(out, b"speed ", a as u64);
    text(out, b":");
    for b in SPEEDS {
        compared(out, a, b);
    }
    text(out, b"\n");
}

pub(crate) fn run(out: &impl Print) {
    for a in SPEEDS {
        line(out, a);
    }
}
