// Octets of one slice copied into another, and the entries of a section.
ghost use Rattle.std.specs.Prelude.{◌≡◌, ◌+◌, ◌*◌, ◌≤◌, length, take, drop};
ghost use Rattle.octets.specs.Octets.{be, put};
ghost use Rattle.entries.specs.Kinds.{entries_with};
ghost use Rattle.sections.specs.Layout.{ipv6_in, prefixed_in};
ghost use Rattle.sheet.specs.Calls.{fronted, lacking};

use entries::{entry_size, front_word};
use format::Kind;
use octets::write;
use sections::{Form, ipv6_in, prefixed_in};

// n octets. A loop and no `copy_from_slice`, which asks the C library for memmove: the archive needs no name more for a copy, and the compiler copies many octets
// at a time here too.
pub(crate) fn copy(s: &[u8], from: usize, n: usize, d: &mut [u8], at: usize)
    requires { (from + n ≤ length s.now) × (at + n ≤ length d.old) }
    ensures { d.new ≡ put d.old at (take n (drop from s.now)) }
{
    for i in 0..n {
        d[at + i] = s[from + i];
    }
}

// A number over four octets. They are lent as a part: the compiler then knows that they are there.
fn put_word(d: &mut [u8], at: usize, word: u32)
    requires { at + 4 ≤ length d.old }
    ensures { d.new ≡ put d.old at (be 4 word) }
{
    write::<u32>(&mut d[at..at + 4], 0, word);
}

// The octets of an entry: those that an IPv4 entry has after its front all at once.
fn copy_entry(size: usize, s: &[u8], from: usize, d: &mut [u8], at: usize)
    requires { (from + size ≤ length s.now) × (at + size ≤ length d.old) }
    ensures { d.new ≡ put d.old at (take size (drop from s.now)) }
{
    if size == 16 {
        octets::copy::<16>(&s[from..from + 16], &mut d[at..at + 16]);
        return;
    }
    if size == 8 {
        octets::copy::<8>(&s[from..from + 8], &mut d[at..at + 8]);
        return;
    }
    copy(s, from, size, d, at);
}

// The size is no const parameter: `spread` takes any size, so the loop for a size that is none of the two would stand beside.
fn spread_of(word: u32, size: usize, s: &[u8], from: usize, n: usize, d: &mut [u8])
    requires { (from + size * n ≤ length s.now) × ((4 + size) * n ≤ length d.old) × (size ≤ 44) }
    ensures { d.new ≡ put d.old 0 (fronted (be 4 word) size s.now from n) }
{
    for i in 0..n {
        let at = (4 + size) * i;
        put_word(d, at, word);
        copy_entry(size, s, from + size * i, d, at + 4);
    }
}

// n entries, each of a size and after a word that it lacks. The compiler makes a loop for each size that an older sheet has.
fn spread(word: u32, size: usize, s: &[u8], from: usize, n: usize, d: &mut [u8])
    requires { (from + size * n ≤ length s.now) × ((4 + size) * n ≤ length d.old) × (size ≤ 44) }
    ensures { d.new ≡ put d.old 0 (fronted (be 4 word) size s.now from n) }
{
    if size == 16 {
        spread_of(word, 16, s, from, n, d);
        return;
    }
    if size == 8 {
        spread_of(word, 8, s, from, n, d);
        return;
    }
    spread_of(word, size, s, from, n, d);
}

// The entries of a section, in the form of their family.
pub(crate) fn copy_entries(form: Form, kind: Kind, s: &[u8], from: usize, n: usize, d: &mut [u8])
    requires { (from + (entries_with (ipv6_in form) (prefixed_in form) kind).size * n ≤ length s.now) × ((length (lacking form) + (entries_with (ipv6_in form) (prefixed_in form) kind).size) * n ≤ length d.old) }
    ensures { d.new ≡ put d.old 0 (fronted (lacking form) (entries_with (ipv6_in form) (prefixed_in form) kind).size s.now from n) }
{
    let ipv6 = ipv6_in(form);
    let prefixed = prefixed_in(form);
    let size = entry_size(ipv6, prefixed, kind);
    if prefixed {
        copy(s, from, size * n, d, 0);
        return;
    }
    spread(front_word(ipv6), size, s, from, n, d);
}
