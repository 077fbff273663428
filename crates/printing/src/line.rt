// Texts, numbers, addresses and refusals, written to `out`. Each function answers whether all of its text was written, and stops at the
// first write that failed. No contract can say what is written.
use format::{Address, Refusal};

pub fn text(out: &impl Print, s: &[u8]) -> bool {
    out.write_all(s).is_ok()
}

pub fn decimal(out: &impl Print, n: u64) -> bool {
    out.print(n).is_ok()
}

// What stands before a number, and the number.
pub fn number(out: &impl Print, before: &[u8], n: u64) -> bool {
    text(out, before) && decimal(out, n)
}

// A name, a number, and the line's end.
pub fn named(out: &impl Print, name: &[u8], n: u64) -> bool {
    number(out, name, n) && text(out, b"\n")
}

// A line with a name.
pub fn title(out: &impl Print, name: &[u8]) -> bool {
    text(out, name) && text(out, b"\n")
}

pub fn flag(out: &impl Print, b: bool) -> bool {
    decimal(out, u64::from(b))
}

// An IPv4 address, octet by octet.
fn four(out: &impl Print, a: u64) -> bool {
    let first = a / 0x1_000000 % 256;
    let second = a / 0x1_0000 % 256;
    let third = a / 0x1_00 % 256;
    let last = a % 256;
    print!(out; "{first}.{second}.{third}.{last}").is_ok()
}

// Four groups of 16 bits.
fn groups(out: &impl Print, n: u64) -> bool {
    let first = n / 0x1_0000_0000_0000;
    let second = n / 0x1_0000_0000 % 0x1_0000;
    let third = n / 0x1_0000 % 0x1_0000;
    let last = n % 0x1_0000;
    print!(out; "{first:x}:{second:x}:{third:x}:{last:x}").is_ok()
}

// An IPv6 address: fe80::1 where all groups but the first and the last are 0, and else all eight groups.
fn sixteen(out: &impl Print, a: Address) -> bool {
    if addresses::is_zero(a) {
        return text(out, b"::");
    }
    if a.high % 0x1_0000_0000_0000 == 0 && a.low < 0x1_0000 {
        return print!(out; "{:x}::{:x}", a.high / 0x1_0000_0000_0000, a.low).is_ok();
    }
    groups(out, a.high) && text(out, b":") && groups(out, a.low)
}

// An address of a family.
pub fn address(out: &impl Print, ipv6: bool, a: Address) -> bool {
    if ipv6 {
        return sixteen(out, a);
    }
    four(out, a.low)
}

// A refusal, and what follows it.
pub fn refused(out: &impl Print, r: Refusal, after: &[u8]) -> bool {
    print!(out; "{r}").is_ok() && text(out, after)
}

// What a packing call wrote.
pub fn packed(out: &impl Print, length: usize, taken: usize) -> bool {
    println!(out; "octets {length}, taken {taken}").is_ok()
}

// Where standard output takes no more, `err`, standard error, says what was cut.
pub fn told(err: &impl Print, written: bool, cut: &[u8]) {
    if !written {
        text(err, cut);
        text(err, b" cut: standard output failed\n");
    }
}
