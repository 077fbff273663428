// The lines of a listing. Each function answers whether all of its text was written, and stops at the first
// write that failed.
ghost use Rattle.std.specs.Prelude.{false, ◌*◌, ◌≤◌, length};
ghost use Rattle.format.specs.Family.{family_of};
ghost use Rattle.format.specs.Entry.{assert_entries, pair_entries};

use crate::value::{assert_at, assert_size, pair_at, pair_size, preference, r_number};
use format::{Address, AssertFields, Kind, PairFields, Record, Refusal};
use hello::Hello;
use printing::{address, decimal, named, number, text};

// The kind and the number of records.
pub(crate) fn heading(out: &impl Print, kind: Kind, n: usize) -> bool {
    println!(out; "{kind} {n}").is_ok()
}

// The number, the place, and what is meant.
pub(crate) fn refused_line(out: &impl Print, r: Refusal) -> bool {
    println!(out; "{r}: {}", r.reason).is_ok()
}

fn priority_line(out: &impl Print, h: Hello) -> bool {
    if h.has_priority {
        return named(out, b"priority ", h.priority as u64);
    }
    text(out, b"priority none\n")
}

fn packing_line(out: &impl Print, packing: bool) -> bool {
    if packing {
        return text(out, b"packing yes\n");
    }
    text(out, b"packing no\n")
}

// A Hello has no records; its values have a line each.
pub(crate) fn hello_lines(out: &impl Print, h: Hello) -> bool {
    heading(out, Kind::Hello, 0)
        && named(out, b"holdtime ", h.holdtime as u64)
        && priority_line(out, h)
        && packing_line(out, h.packing)
}

// A record's number, its source and its group.
fn flow(out: &impl Print, ipv6: bool, n: usize, source: Address, group: Address) -> bool {
    decimal(out, n as u64)
        && text(out, b" S ")
        && address(out, ipv6, source)
        && text(out, b" G ")
        && address(out, ipv6, group)
}

fn pair_line(out: &impl Print, ipv6: bool, n: usize, x: PairFields) -> bool {
    flow(out, ipv6, n, x.source, x.group) && text(out, b"\n")
}

fn assert_line(out: &impl Print, ipv6: bool, n: usize, x: AssertFields) -> bool {
    let w = x.r_preference;
    flow(out, ipv6, n, x.source, x.group)
        && number(out, b" R ", r_number(w))
        && number(out, b" pref ", preference(w))
        && named(out, b" metric ", x.metric as u64)
}

// A record of either case, with its number.
pub(crate) fn record_line(out: &impl Print, ipv6: bool, n: usize, r: Record) -> bool {
    match r {
        Record::Assert(x) => assert_line(out, ipv6, n, x),
        Record::Pair(x) => pair_line(out, ipv6, n, x),
    }
}

// The first n of the entries of asserts, counted from 1.
pub(crate) fn assert_lines(out: &impl Print, ipv6: bool, e: &[u8], n: usize) -> bool
    requires { (assert_entries (family_of ipv6)).size * n ≤ length e.now }
{
    let size = assert_size(ipv6);
    (0..n).all(|i| assert_line(out, ipv6, i + 1, assert_at(ipv6, e, size * i)))
}

// The first n of the entries of pairs, counted from 1.
pub(crate) fn pair_lines(out: &impl Print, ipv6: bool, e: &[u8], n: usize) -> bool
    requires { (pair_entries (family_of ipv6) false).size * n ≤ length e.now }
{
    let size = pair_size(ipv6);
    (0..n).all(|i| pair_line(out, ipv6, i + 1, pair_at(ipv6, e, size * i)))
}
