// The rule that makes the list of either family: 16 blocks of 64 entries, each by a row that says how many neighbours
// share a value. So runs of every kind and of many lengths stand beside one another, and some go on from block to block.
ghost use Rattle.std.specs.Prelude.{◌≡◌, ◌*◌, ◌≤◌, ◌<◌, length};

use format::{Address, AddressFamily, AssertFields, is_ipv6};
use printing::put_assert;

pub(crate) const COUNT: usize = 1024;

// R of a block's first entry. How many neighbours share R, the preference and metric, the source, and the group: 0 is
// all of the block. Of how many neighbours the last has source 0, where its R is 1: 0 is none.
#[derive(Clone, Copy)]
struct Shared {
    first: u32,
    r: u32,
    metric: u32,
    source: u32,
    group: u32,
    zero: u32,
}

fn row(first: u32, r: u32, metric: u32, source: u32, group: u32, zero: u32) -> Shared
    requires { first ≤ 1 }
    ensures { result.first ≤ 1 }
{
    Shared {
        first,
        r,
        metric,
        source,
        group,
        zero,
    }
}

// The rows stand in such an order that at each limit of train.rt but the last a message's end cuts a source run and a
// group run, and up to 1,480 also an R=1 run between two groups and a group's zero sources. At the last limit nothing
// can be cut: 1,024 entries are at most 30,728 octets, and in IPv6 55,304. The last three are IPv6's alone: runs of two
// and three zero sources, which are written apart there, and of four, which are not.
fn shared_in(block: u32) -> Shared
    ensures { result.first ≤ 1 }
{
    match block {
        0 => row(0, 1, 0, 0, 1, 0),
        1 => row(0, 0, 0, 4, 1, 0),
        2 => row(0, 0, 0, 1, 1, 0),
        3 => row(1, 0, 0, 1, 9, 1),
        4 => row(1, 0, 0, 1, 1, 1),
        5 => row(0, 0, 2, 0, 2, 0),
        6 => row(1, 0, 1, 0, 1, 0),
        7 => row(0, 0, 0, 0, 1, 0),
        8 => row(1, 0, 0, 1, 0, 0),
        9 => row(1, 0, 1, 1, 1, 0),
        10 => row(1, 0, 3, 1, 2, 3),
        11 => row(0, 4, 0, 0, 1, 0),
        12 => row(1, 0, 0, 1, 4, 0),
        13 => row(0, 0, 1, 0, 1, 0),
        14 => row(1, 3, 1, 1, 1, 2),
        15 => row(1, 0, 0, 1, 6, 3),
        16 => row(1, 0, 0, 1, 2, 1),
        17 => row(1, 0, 0, 1, 3, 1),
        _ => row(1, 0, 0, 1, 4, 1),
    }
}

// How often a value that n neighbours share has changed up to entry j of a block.
fn changes(j: u32, n: u32) -> u32
    ensures { result ≤ j }
{
    if n == 0 {
        return 0;
    }
    j / n
}

// Whether entry j of a block is the last of n neighbours.
fn is_last(j: u32, n: u32) -> bool {
    if n == 0 {
        return false;
    }
    j % n == n - 1
}

// Group k of a block: 232.1.BLOCK.0 and on, or from ff3e::e801:BLOCK on. There the halves of the address change by
// turns, so that neighbours differ in one of the two.
fn group(ipv6: bool, block: u32, k: u32) -> Address
    requires { (block < 19) × (k < 64) }
{
    let first = 0xe801_0000 + 256 * block as u64;
    let n = k as u64;
    if ipv6 {
        return Address {
            high: 0xff3e_0000_0000_0000 + (n + 1) / 2,
            low: first + n / 2,
        };
    }
    Address {
        high: 0,
        low: first + n,
    }
}

// Source k of a block: 10.1.0.1 and on, or from 2001:db8::1 on, its halves by turns too.
fn source(ipv6: bool, k: u32) -> Address
    requires { k < 64 }
{
    let n = k as u64;
    if ipv6 {
        return Address {
            high: 0x2001_0db8_0000_0000 + (n + 1) / 2,
            low: 1 + n / 2,
        };
    }
    Address {
        high: 0,
        low: 0x0a01_0001 + n,
    }
}

// The source of an entry, or 0.
fn source_of(ipv6: bool, j: u32, r: u32, s: Shared) -> Address
    requires { j < 64 }
{
    if r == 1 && is_last(j, s.zero) {
        return Address { high: 0, low: 0 };
    }
    source(ipv6, changes(j, s.source))
}

// Entry j of a block. The metric and the preference change by turns, so that neighbours differ in one of the two.
fn entry(ipv6: bool, block: u32, j: u32) -> AssertFields
    requires { (block < 19) × (j < 64) }
{
    let s = shared_in(block);
    let r = (s.first + changes(j, s.r)) % 2;
    let k = changes(j, s.metric);
    AssertFields {
        group: group(ipv6, block, changes(j, s.group)),
        source: source_of(ipv6, j, r, s),
        r_preference: 0x8000_0000 * r + 100 + (k + 1) / 2,
        metric: 10 + k / 2,
    }
}

// Where entry i of a list begins.
pub(crate) fn place(family: AddressFamily, i: usize) -> usize
    requires { i ≤ 1024 }
    ensures { (20 * i ≤ result) × (result ≤ 44 * i) }
{
    match family {
        AddressFamily::Ipv4 => 20 * i,
        AddressFamily::Ipv6 => 44 * i,
    }
}

// The block that a list begins with.
fn first_block(ipv6: bool) -> usize
    ensures { result ≤ 3 }
{
    if ipv6 {
        return 3;
    }
    0
}

fn fill(family: AddressFamily, e: &mut [u8]) {
    let ipv6 = is_ipv6(family);
    let first = first_block(ipv6);
    for i in 0..COUNT {
        let x = entry(ipv6, (first + i / 64) as u32, (i % 64) as u32);
        put_assert(ipv6, e, place(family, i), x);
    }
}

// Room for the list of either family.
pub(crate) fn room() -> [u8; 45056]
    ensures { 45056 ≡ length result }
{
    [0; 45056]
}

// The list, at the front of its room.
pub(crate) fn list(family: AddressFamily) -> [u8; 45056]
    ensures { 45056 ≡ length result }
{
    let mut e = room();
    fill(family, &mut e);
    e
}
