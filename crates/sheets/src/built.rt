// Sheets of every form, built octet by octet from their counts: the library writes the newest form of a family alone, and no count over its
// limit. An entry, and a neighbour, follows from its number.
ghost use Rattle.std.specs.Prelude.{◌≡◌, ◌+◌, ◌*◌, ◌≤◌, length};

use addresses::width;
use format::{Address, AddressFamily, is_ipv6};
use octets::write;
use printing::put_address;
use sections::{Form, Places};
use sheet::Counts;

// How many octets the largest sheet has.
const ROOM: usize = 657180;

// Room for any sheet, all of one octet. It is made here alone: an array of this size takes seconds to check.
pub(crate) fn room(x: u8) -> [u8; ROOM]
    ensures { 657180 ≡ length result }
{
    [x; ROOM]
}

// The family of a form's sheets.
pub(crate) fn family_of(form: Form) -> AddressFamily {
    match form {
        Form::Base | Form::Large | Form::Ipv4 => AddressFamily::Ipv4,
        Form::Ipv6 => AddressFamily::Ipv6,
    }
}

// The form in which a sheet is written again.
pub(crate) fn newest(form: Form) -> Form {
    match form {
        Form::Base | Form::Large | Form::Ipv4 => Form::Ipv4,
        Form::Ipv6 => Form::Ipv6,
    }
}

// How many octets a header has.
pub(crate) fn header_size(form: Form) -> usize
    ensures { result ≤ 28 }
{
    match form {
        Form::Base => 12,
        Form::Large | Form::Ipv4 | Form::Ipv6 => 28,
    }
}

// What stands before the counts: 0xFFFF and a number, but in the base form.
fn put_mark(form: Form, d: &mut [u8]) {
    match form {
        Form::Base => {}
        Form::Large => {
            write::<u32>(d, 0, 0xffff_0002);
        }
        Form::Ipv4 => {
            write::<u32>(d, 0, 0xffff_0003);
        }
        Form::Ipv6 => {
            write::<u32>(d, 0, 0xffff_0004);
        }
    }
}

// Number k of the six in a header of 32-bit numbers, or of 16-bit ones. Of one that has no room in 16 bits the low ones are put: no sheet
// here has it.
fn put_number(form: Form, d: &mut [u8], k: usize, n: usize)
    requires { (k ≤ 5) × (n ≤ 700000) }
{
    if header_size(form) == 12 {
        write::<u16>(d, 2 * k, (n % 0x1_0000) as u16);
        return;
    }
    write::<u32>(d, 4 + 4 * k, n as u32);
}

// Group n of a family: 232.0.0.0 and on, or ff3e::e800:0 and on.
fn group(ipv6: bool, n: u32) -> Address
    requires { n ≤ 16785409 }
{
    let low = 0xe800_0000 + n as u64;
    if ipv6 {
        return Address {
            high: 0xff3e_0000_0000_0000,
            low,
        };
    }
    Address { high: 0, low }
}

// Source n of a family, and none for 0.
fn source(ipv6: bool, n: u32) -> Address
    requires { n ≤ 8193 }
{
    let k = n as u64;
    if n == 0 {
        return Address { high: 0, low: 0 };
    }
    if ipv6 {
        return Address {
            high: 0x2001_0db8_0000_0000 + k,
            low: k,
        };
    }
    Address {
        high: 0,
        low: 0x0a00_0000 + k,
    }
}

// Neighbour i of a family.
pub(crate) fn neighbour(ipv6: bool, i: u32) -> Address
    requires { i ≤ 65 }
{
    if ipv6 {
        return Address {
            high: 0xfe80_0000_0000_0000,
            low: 1 + i as u64,
        };
    }
    Address {
        high: 0,
        low: 0x0a00_0001 + i as u64,
    }
}

// What an entry and a row begin with, but in the older forms: where the address begins.
fn put_front(form: Form, d: &mut [u8], at: usize) -> usize
    requires { at ≤ 700000 }
    ensures { (at ≤ result) × (result ≤ at + 4) }
{
    match form {
        Form::Base | Form::Large => at,
        Form::Ipv4 => {
            write::<u32>(d, at, 0x0100_0000);
            at + 4
        }
        Form::Ipv6 => {
            write::<u32>(d, at, 0x0200_0000);
            at + 4
        }
    }
}

// An address: where the next field begins.
fn put_next(ipv6: bool, d: &mut [u8], at: usize, a: Address) -> usize
    requires { at ≤ 700020 }
    ensures { (at ≤ result) × (result ≤ at + 16) }
{
    put_address(ipv6, d, at, a);
    at + width(ipv6)
}

// What asserts and pairs begin with, and their two addresses, by their numbers.
fn put_addresses(form: Form, d: &mut [u8], at: usize, g: u32, s: u32) -> usize
    requires { (at ≤ 700000) × (g ≤ 16785409) × (s ≤ 8193) }
    ensures { (at ≤ result) × (result ≤ at + 36) }
{
    let ipv6 = is_ipv6(family_of(form));
    let first = put_front(form, d, at);
    let second = put_next(ipv6, d, first, group(ipv6, g));
    put_next(ipv6, d, second, source(ipv6, s))
}

// The source of assert i, and R with its preference: every fourth has R=1 and source 0.
fn assert_source(i: u32) -> u32
    ensures { result ≤ i }
{
    if i % 4 == 0 {
        return 0;
    }
    i
}

fn r_preference(i: u32) -> u32
    requires { i ≤ 8192 }
{
    if i % 4 == 0 {
        return 0x8000_0000 + i;
    }
    i
}

// Assert i: where the next entry begins.
fn put_assert(form: Form, d: &mut [u8], at: usize, i: u32) -> usize
    requires { (at ≤ 700000) × (i ≤ 8192) }
    ensures { (at ≤ result) × (result ≤ at + 44) }
{
    let past = put_addresses(form, d, at, i, assert_source(i));
    write::<u32>(d, past, r_preference(i));
    write::<u32>(d, past + 4, i);
    past + 8
}

// The first n asserts: their groups differ. Where the next section begins.
fn put_asserts(form: Form, d: &mut [u8], at: usize, n: usize) -> usize
    requires { (n ≤ 8193) × (at ≤ 28) }
    ensures { (at ≤ result) × (result ≤ at + 44 * n) }
{
    let mut next = at;
    for i in 0..n {
        next = put_assert(form, d, next, i as u32);
    }
    next
}

// The first n pairs: every fourth has source 0.
fn put_pairs(form: Form, d: &mut [u8], at: usize, n: usize) -> usize
    requires { (n ≤ 8193) × (at ≤ 360520) }
    ensures { (at ≤ result) × (result ≤ at + 36 * n) }
{
    let mut next = at;
    for i in 0..n {
        next = put_addresses(form, d, next, 0x0100_0000 + i as u32, (i % 4) as u32);
    }
    next
}

fn priority(i: u32) -> u32 {
    if i % 2 == 0 {
        return i;
    }
    0
}

fn flags(i: u32) -> u8 {
    match i % 4 {
        0 => 3,
        2 => 1,
        _ => 0,
    }
}

// What follows the address of neighbour i: every other one has its number as priority, every fourth packs.
fn put_said(d: &mut [u8], at: usize, i: u32) -> usize
    requires { at ≤ 700020 }
    ensures { (at ≤ result) × (result ≤ at + 8) }
{
    write::<u32>(d, at, priority(i));
    write::<u8>(d, at + 4, flags(i));
    write::<u8>(d, at + 5, 0);
    write::<u16>(d, at + 6, 105);
    at + 8
}

fn put_row(form: Form, d: &mut [u8], at: usize, i: u32) -> usize
    requires { (at ≤ 700000) × (i ≤ 65) }
    ensures { (at ≤ result) × (result ≤ at + 28) }
{
    let ipv6 = is_ipv6(family_of(form));
    let first = put_front(form, d, at);
    let past = put_next(ipv6, d, first, neighbour(ipv6, i));
    put_said(d, past, i)
}

// The first n neighbours.
fn put_rows(form: Form, d: &mut [u8], at: usize, n: usize) -> usize
    requires { (n ≤ 65) × (at ≤ 655468) }
    ensures { (at ≤ result) × (result ≤ at + 28 * n) }
{
    let mut next = at;
    for i in 0..n {
        next = put_row(form, d, next, i as u32);
    }
    next
}

// The header: what stands before the counts, then each count and the offset of its section.
fn put_header(form: Form, d: &mut [u8], c: Counts, s: Places)
    requires counts { (c.asserts ≤ 8193) × (c.pairs ≤ 8193) × (c.neighbours ≤ 65) }
    requires places { (s.asserts ≤ 700000) × (s.pairs ≤ 700000) × (s.rows ≤ 700000) }
{
    put_mark(form, d);
    put_number(form, d, 0, c.asserts);
    put_number(form, d, 1, s.asserts);
    put_number(form, d, 2, c.pairs);
    put_number(form, d, 3, s.pairs);
    put_number(form, d, 4, c.neighbours);
    put_number(form, d, 5, s.rows);
}

// The sheet of a form with the first so many of each: where its sections begin, one after another, and where the last ends.
pub(crate) fn build(form: Form, c: Counts, d: &mut [u8]) -> Places
    requires { (c.asserts ≤ 8193) × (c.pairs ≤ 8193) × (c.neighbours ≤ 65) }
    ensures { (result.asserts ≤ result.pairs) × (result.pairs ≤ result.rows) × (result.rows ≤ result.end) }
{
    let asserts = header_size(form);
    let pairs = put_asserts(form, d, asserts, c.asserts);
    let rows = put_pairs(form, d, pairs, c.pairs);
    let end = put_rows(form, d, rows, c.neighbours);
    let s = Places {
        asserts,
        pairs,
        rows,
        end,
    };
    put_header(form, d, c, s);
    s
}
