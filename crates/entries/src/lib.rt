// Entries by the kind of message that is made of them: their size, which are allowed, and the first that is not. Octets
// past the last whole entry are not looked at. Entries begin with the front of their family, but not in older sheets: `prefixed` says which.
#![tactic(auto)]

ghost use Rattle.std.specs.Prelude.{◌≡◌, Bool, true, false, ◌+◌, ◌-◌, ◌*◌, ◌/◌, ◌<◌, ◌≤◌, length};
ghost use Rattle.format.specs.Family.{family_of};
ghost use Rattle.octets.specs.Octets.{value};
ghost use Rattle.format.specs.Entry.{front_size, has_front, AllAllowed};
ghost use Rattle.format.specs.Packing.{first_bad};
ghost use Rattle.entries.specs.Kinds.{is_assert, is_stop, family_with, fields_size, low_first, entries_by, entries_with, zero_by, numbered, listed_by};

use addresses::{
    address_at, begins_source, family_number, front_size, is_multicast, is_zero, may_be_source,
    width,
};
use format::{Kind, r_bit};
use octets::number;

// Whether entries are asserts: R with preference and metric stand past group and source.
pub fn is_assert(kind: Kind) -> bool
    ensures { result ≡ is_assert kind }
{
    match kind {
        Kind::Hello => true,
        Kind::Assert => true,
        Kind::Simple => true,
        Kind::Aggregated => true,
        Kind::NullRegister => false,
        Kind::RegisterStop => false,
    }
}

fn is_stop(kind: Kind) -> bool
    ensures { result ≡ is_stop kind }
{
    match kind {
        Kind::Hello => false,
        Kind::Assert => false,
        Kind::Simple => false,
        Kind::Aggregated => false,
        Kind::NullRegister => false,
        Kind::RegisterStop => true,
    }
}

// The octets before the group of an entry, or before the address of a neighbour.
pub fn front_by(ipv6: bool, prefixed: bool) -> usize
    ensures { (result ≡ front_size (family_with ipv6 prefixed)) × (result ≤ 4) }
{
    if prefixed {
        return front_size(ipv6);
    }
    0
}

// The octets of an entry: its front, group and source, and 8 more of an assert.
fn size_by(ipv6: bool, prefixed: bool, asserts: bool) -> usize
    ensures { (stop : Bool) → result ≡ (entries_by (family_with ipv6 prefixed) asserts stop).size }
{
    let pair = front_by(ipv6, prefixed) + 2 * width(ipv6);
    if asserts {
        return pair + 8;
    }
    pair
}

pub fn entry_size(ipv6: bool, prefixed: bool, kind: Kind) -> usize
    ensures { result ≡ (entries_with ipv6 prefixed kind).size }
{
    size_by(ipv6, prefixed, is_assert(kind))
}

// The front of a family, as one number.
pub fn front_word(ipv6: bool) -> u32
    ensures { result ≡ value (family_of ipv6).front }
{
    if ipv6 {
        return 0x0200_0000;
    }
    0x0100_0000
}

fn wide(x: u8) -> u32
    ensures { (result ≡ x) × (result < 256) }
{
    x as u32
}

// The number in four octets, the first of them the lowest: the compiler reads such a number at once.
fn low_first(e: &[u8], at: usize) -> u32
    requires { at + 4 ≤ length e.now }
    ensures { result ≡ low_first e.now at }
{
    wide(e[at]) + 256 * wide(e[at + 1]) + 65536 * wide(e[at + 2]) + 16777216 * wide(e[at + 3])
}

// Whether the front of its family, its number and three zero octets, stands at the place of an entry. It is looked at as one number: octet by octet took half as
// long again.
fn has_front(ipv6: bool, prefixed: bool, e: &[u8], at: usize) -> bool
    requires { at + front_size (family_with ipv6 prefixed) ≤ length e.now }
    ensures { result ≡ has_front (family_with ipv6 prefixed) e.now at }
{
    if prefixed {
        return low_first(e, at) == wide(family_number(ipv6));
    }
    true
}

// Whether the source of the entry whose group stands at a place may be 0: of an assert by its R bit, of a pair by the kind.
fn zero_allowed(ipv6: bool, asserts: bool, stop: bool, e: &[u8], group: usize) -> bool
    requires { group + fields_size (family_of ipv6) asserts ≤ length e.now }
    ensures { result ≡ zero_by (family_of ipv6) asserts stop e.now group }
{
    if asserts {
        let word = group + 2 * width(ipv6);
        return r_bit(number::<u32>(&e[word..word + 4], 0));
    }
    stop
}

// Whether an entry is allowed: by its front, its group and its source.
fn allowed(ipv6: bool, prefixed: bool, asserts: bool, stop: bool, e: &[u8], at: usize) -> bool
    requires { at + (entries_by (family_with ipv6 prefixed) asserts stop).size ≤ length e.now }
    ensures { result ≡ (entries_by (family_with ipv6 prefixed) asserts stop).allowed_at e.now at }
{
    if !has_front(ipv6, prefixed, e, at) {
        return false;
    }
    let group = at + front_by(ipv6, prefixed);
    if !is_multicast(ipv6, e[group]) {
        return false;
    }
    let w = width(ipv6);
    may_be_source(
        ipv6,
        &e[group + w..group + 2 * w],
        0,
        zero_allowed(ipv6, asserts, stop, e, group),
    )
}

// Whether an entry is allowed by its front and the first octets of its group and of its source alone, as nearly all are. Of one that is not passed so
// nothing is said.
fn begins(ipv6: bool, prefixed: bool, e: &[u8], at: usize) -> bool
    requires { at + front_size (family_with ipv6 prefixed) + 2 * (family_with ipv6 prefixed).width ≤ length e.now }
    ensures { (asserts stop : Bool) → result ≡ true → (entries_by (family_with ipv6 prefixed) asserts stop).allowed_at e.now at ≡ true }
{
    if !has_front(ipv6, prefixed, e, at) {
        return false;
    }
    let group = at + front_by(ipv6, prefixed);
    if !is_multicast(ipv6, e[group]) {
        return false;
    }
    begins_source(ipv6, e[group + width(ipv6)])
}

// The same of three entries.
fn three_begin(ipv6: bool, prefixed: bool, asserts: bool, e: &[u8], at: usize) -> bool
    requires { (stop : Bool) → at + 3 * (entries_by (family_with ipv6 prefixed) asserts stop).size ≤ length e.now }
    ensures { (stop : Bool) → result ≡ true → AllAllowed (entries_by (family_with ipv6 prefixed) asserts stop) e.now at 3 }
{
    let size = size_by(ipv6, prefixed, asserts);
    if !begins(ipv6, prefixed, e, at) {
        return false;
    }
    if !begins(ipv6, prefixed, e, at + size) {
        return false;
    }
    begins(ipv6, prefixed, e, at + 2 * size)
}

// Past entries from a number on that are passed so, three in a turn: most lists are long, and few of their entries have to be looked at further. The
// compiler makes a loop for each family and each size, as long as it is small; one loop for all took three times as long. It stands by itself, since inside
// `up_to` it counts the entries left anew in each turn, and lists of pairs took up to a quarter more time.
#[inline(never)]
fn past<const IPV6: bool, const PREFIXED: bool, const ASSERTS: bool>(
    e: &[u8],
    from: usize,
    count: usize,
) -> usize
    requires { (from ≤ count) × ((stop : Bool) → count ≡ length e.now / (entries_by (family_with IPV6 PREFIXED) ASSERTS stop).size) }
    ensures { (from ≤ result) × (result ≤ count) × ((stop : Bool) → first_bad (entries_by (family_with IPV6 PREFIXED) ASSERTS stop) e.now result ≡ first_bad (entries_by (family_with IPV6 PREFIXED) ASSERTS stop) e.now from) }
{
    let size = size_by(IPV6, PREFIXED, ASSERTS);
    let mut i = from;
    let mut at = size * from;
    // The answer is where three in a turn end: a `for` over turns would have to work it out at both returns.
    while 3 <= count - i {
        if !three_begin(IPV6, PREFIXED, ASSERTS, e, at) {
            return i;
        }
        i += 3;
        at += 3 * size;
    }
    i
}

// Past entries from a number on that are passed so, one in a turn: the first that is not may be any of three.
fn past_ones(
    ipv6: bool,
    prefixed: bool,
    asserts: bool,
    e: &[u8],
    from: usize,
    count: usize,
) -> usize
    requires { (from ≤ count) × ((stop : Bool) → count ≡ length e.now / (entries_by (family_with ipv6 prefixed) asserts stop).size) }
    ensures { (from ≤ result) × (result ≤ count) × ((stop : Bool) → first_bad (entries_by (family_with ipv6 prefixed) asserts stop) e.now result ≡ first_bad (entries_by (family_with ipv6 prefixed) asserts stop) e.now from) }
{
    let size = size_by(ipv6, prefixed, asserts);
    for i in from..count {
        if !begins(ipv6, prefixed, e, size * i) {
            return i;
        }
    }
    count
}

// Whether an entry is allowed that has no source. Of one that has a source nothing is said.
fn has_none(ipv6: bool, prefixed: bool, asserts: bool, stop: bool, e: &[u8], at: usize) -> bool
    requires { at + (entries_by (family_with ipv6 prefixed) asserts stop).size ≤ length e.now }
    ensures { result ≡ true → (entries_by (family_with ipv6 prefixed) asserts stop).allowed_at e.now at ≡ true }
{
    if !has_front(ipv6, prefixed, e, at) {
        return false;
    }
    let group = at + front_by(ipv6, prefixed);
    if !is_multicast(ipv6, e[group]) {
        return false;
    }
    let w = width(ipv6);
    if !is_zero(address_at(ipv6, &e[group + w..group + 2 * w], 0)) {
        return false;
    }
    zero_allowed(ipv6, asserts, stop, e, group)
}

// Past entries from a number on that have no source, and are allowed: they often stand together, and singly each takes four times as long. The compiler
// makes a loop for each, as in `past`.
fn past_none<const IPV6: bool, const PREFIXED: bool, const ASSERTS: bool>(
    stop: bool,
    e: &[u8],
    from: usize,
    count: usize,
) -> usize
    requires { (from ≤ count) × (count ≡ length e.now / (entries_by (family_with IPV6 PREFIXED) ASSERTS stop).size) }
    ensures { (from ≤ result) × (result ≤ count) × (first_bad (entries_by (family_with IPV6 PREFIXED) ASSERTS stop) e.now result ≡ first_bad (entries_by (family_with IPV6 PREFIXED) ASSERTS stop) e.now from) }
{
    let size = size_by(IPV6, PREFIXED, ASSERTS);
    for i in from..count {
        if !has_none(IPV6, PREFIXED, ASSERTS, stop, e, size * i) {
            return i;
        }
    }
    count
}

// The number of the first entry that is not allowed, of those from a number up to another one, or that one.
fn singly(
    ipv6: bool,
    prefixed: bool,
    asserts: bool,
    stop: bool,
    e: &[u8],
    from: usize,
    end: usize,
) -> usize
    requires { (from ≤ end) × (end ≤ length e.now / (entries_by (family_with ipv6 prefixed) asserts stop).size) }
    ensures { (from ≤ result) × (result ≤ end) × (first_bad (entries_by (family_with ipv6 prefixed) asserts stop) e.now result ≡ first_bad (entries_by (family_with ipv6 prefixed) asserts stop) e.now from) × (result < end → (entries_by (family_with ipv6 prefixed) asserts stop).allowed_at e.now ((entries_by (family_with ipv6 prefixed) asserts stop).size * result) ≡ false) }
{
    let size = size_by(ipv6, prefixed, asserts);
    for i in from..end {
        if !allowed(ipv6, prefixed, asserts, stop, e, size * i) {
            return i;
        }
    }
    end
}

// How far entries are looked at singly, past some that were passed: no further, or where none was passed, one.
fn one_end(from: usize, i: usize, count: usize) -> usize
    requires { (from ≤ i) × (i ≤ count) }
    ensures { (i ≤ result) × (result ≤ count) × (count - result ≤ count - (from + 1)) }
{
    if from < i {
        return i;
    }
    if i < count {
        return i + 1;
    }
    i
}

// The number of the first entry from a number on that is not allowed, or how many there are. Where three are not passed by their first octets, the first
// that is not is looked for, then entries without a source, then one entry whatever it is; and then three are tried again.
fn up_to<const IPV6: bool, const PREFIXED: bool, const ASSERTS: bool>(
    stop: bool,
    e: &[u8],
    start: usize,
    count: usize,
) -> usize
    requires { (start ≤ count) × (count ≡ length e.now / (entries_by (family_with IPV6 PREFIXED) ASSERTS stop).size) }
    ensures { numbered count result ≡ first_bad (entries_by (family_with IPV6 PREFIXED) ASSERTS stop) e.now start }
{
    let mut i = past::<IPV6, PREFIXED, ASSERTS>(e, start, count);
    // A turn goes on from where its calls stopped, so a `for` has no range to go over.
    while i < count {
        let ones = past_ones(IPV6, PREFIXED, ASSERTS, e, i, count);
        let none = past_none::<IPV6, PREFIXED, ASSERTS>(stop, e, ones, count);
        let end = one_end(ones, none, count);
        let bad = singly(IPV6, PREFIXED, ASSERTS, stop, e, none, end);
        if bad < end {
            return bad;
        }
        i = past::<IPV6, PREFIXED, ASSERTS>(e, end, count);
    }
    i
}

// The same by flags that are known at run time: the one place where they become const parameters.
fn up_to_by(
    ipv6: bool,
    prefixed: bool,
    asserts: bool,
    stop: bool,
    e: &[u8],
    start: usize,
    count: usize,
) -> usize
    requires { (start ≤ count) × (count ≡ length e.now / (entries_by (family_with ipv6 prefixed) asserts stop).size) }
    ensures { numbered count result ≡ first_bad (entries_by (family_with ipv6 prefixed) asserts stop) e.now start }
{
    if prefixed {
        if ipv6 {
            if asserts {
                return up_to::<true, true, true>(stop, e, start, count);
            }
            return up_to::<true, true, false>(stop, e, start, count);
        }
        if asserts {
            return up_to::<false, true, true>(stop, e, start, count);
        }
        return up_to::<false, true, false>(stop, e, start, count);
    }
    if ipv6 {
        if asserts {
            return up_to::<true, false, true>(stop, e, start, count);
        }
        return up_to::<true, false, false>(stop, e, start, count);
    }
    if asserts {
        return up_to::<false, false, true>(stop, e, start, count);
    }
    up_to::<false, false, false>(stop, e, start, count)
}

// The first entry from a number on that a message of a kind may not have.
pub fn first_bad(ipv6: bool, prefixed: bool, kind: Kind, e: &[u8], start: usize) -> Option<usize>
    ensures { listed_by result ≡ first_bad (entries_with ipv6 prefixed kind) e.now start }
{
    let asserts = is_assert(kind);
    let count = e.len() / size_by(ipv6, prefixed, asserts);
    if count < start {
        return None;
    }
    let i = up_to_by(ipv6, prefixed, asserts, is_stop(kind), e, start, count);
    if i < count {
        return Some(i);
    }
    None
}
