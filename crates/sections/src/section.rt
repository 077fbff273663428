// The sections of a sheet whose header is in order: entries as messages may have them, and rows of which none has the
// address of an earlier one.
ghost use Rattle.std.specs.Prelude.{◌≡◌, true, false, [], ◌+◌, ◌*◌, ◌≤◌, length};
ghost use Rattle.format.specs.Family.{family_of};
ghost use Rattle.format.specs.Path.{number_of};
ghost use Rattle.format.specs.Entry.{front_size, has_front};
ghost use Rattle.addresses.specs.Addresses.{address_at};
ghost use Rattle.neighbours.specs.Rows.{address_of, has};
ghost use Rattle.entries.specs.Kinds.{family_with, entries_with};
ghost use Rattle.sections.specs.Layout.{layout_of, family_in, row_size, end};
ghost use Rattle.sections.specs.Contents.{row_at};
ghost use Rattle.sections.specs.Checking.{counts_allowed, check_entries, row_form, row_fits, check_rows};
ghost use Rattle.sections.specs.Sections.{earlier_rows, check_sections, section_by};

use crate::layout::{ipv6_in, places_of, prefixed_in};
use crate::row::{neighbour_in, row_size};
use crate::{Counts, Form};
use addresses::{address_at, is_same, width};
use entries::{entry_size, first_bad, front_by, front_word};
use format::{Address, Kind, Reason, Refusal};
use neighbours::is_allowed;
use octets::number;

// So many entries from a place on, as messages of a kind may have them.
fn check_entries(
    ipv6: bool,
    prefixed: bool,
    kind: Kind,
    o: &[u8],
    from: usize,
    count: usize,
) -> Result<(), Refusal>
    requires { from + (entries_with ipv6 prefixed kind).size * count ≤ length o.now }
    ensures { section_by result ≡ check_entries (entries_with ipv6 prefixed kind) o.now from count }
{
    let size = entry_size(ipv6, prefixed, kind);
    let end = from + size * count;
    match first_bad(ipv6, prefixed, kind, &o[from..end], 0) {
        None => Ok(()),
        Some(i) => Err(Reason::BadSheet.at(from + size * i)),
    }
}

// Whether one of so many rows from a place on has an address.
fn is_earlier(
    ipv6: bool,
    prefixed: bool,
    o: &[u8],
    from: usize,
    count: usize,
    address: Address,
) -> bool
    requires { from + row_size (family_with ipv6 prefixed) * count ≤ length o.now }
    ensures { result ≡ has (number_of address) (earlier_rows (family_with ipv6 prefixed) o.now from count) }
{
    let size = row_size(ipv6, prefixed);
    let front = front_by(ipv6, prefixed);
    for i in (0..count).rev() {
        let other = address_at(ipv6, o, from + size * i + front);
        if is_same(other, address) {
            return true;
        }
    }
    false
}

// Whether the front of its family stands at the place of a row.
fn has_front(ipv6: bool, prefixed: bool, o: &[u8], at: usize) -> bool
    ensures { result ≡ has_front (family_with ipv6 prefixed) o.now at }
{
    if prefixed {
        return number::<u32>(o, at) == front_word(ipv6);
    }
    true
}

// Whether flags and zero octet of a neighbour whose address stands at a place are allowed.
fn row_form(ipv6: bool, o: &[u8], at: usize) -> bool
    requires { at ≤ length o.now }
    ensures { result ≡ row_form (family_of ipv6) o.now at }
{
    let past = at + width(ipv6);
    if 4 <= number::<u8>(o, past + 4) {
        return false;
    }
    number::<u8>(o, past + 5) == 0
}

// Whether a row, with its address read, is one that a sheet may hold after the rows before it. Where no address before it has its last octet, its own is new.
fn row_fits(
    ipv6: bool,
    prefixed: bool,
    o: &[u8],
    from: usize,
    i: usize,
    address: Address,
    met: bool,
) -> bool
    requires { (from + row_size (family_with ipv6 prefixed) * i + row_size (family_with ipv6 prefixed) ≤ length o.now) × (number_of address ≡ address_at (family_of ipv6) o.now (from + row_size (family_with ipv6 prefixed) * i + front_size (family_with ipv6 prefixed))) × (met ≡ false → has (address_of (row_at (family_with ipv6 prefixed) o.now (from + row_size (family_with ipv6 prefixed) * i))) (earlier_rows (family_with ipv6 prefixed) o.now from i) ≡ false) }
    ensures { result ≡ row_fits (family_with ipv6 prefixed) o.now (from + row_size (family_with ipv6 prefixed) * i) (earlier_rows (family_with ipv6 prefixed) o.now from i) }
{
    let at = from + row_size(ipv6, prefixed) * i;
    if !has_front(ipv6, prefixed, o, at) {
        return false;
    }
    let place = at + front_by(ipv6, prefixed);
    if !row_form(ipv6, o, place) {
        return false;
    }
    let row = neighbour_in(ipv6, o, place, address);
    if !is_allowed(ipv6, row) {
        return false;
    }
    if met {
        return !is_earlier(ipv6, prefixed, o, from, i, row.address);
    }
    true
}

// So many rows from a place on. The last octets of their addresses are marked, so that only few rows are compared with others.
fn check_rows(
    ipv6: bool,
    prefixed: bool,
    o: &[u8],
    from: usize,
    count: usize,
) -> Result<(), Refusal>
    requires { from + row_size (family_with ipv6 prefixed) * count ≤ length o.now }
    ensures { section_by result ≡ check_rows (family_with ipv6 prefixed) o.now [] from count }
{
    let size = row_size(ipv6, prefixed);
    let front = front_by(ipv6, prefixed);
    let mut met = [false; 256];
    for i in 0..count {
        let at = from + size * i;
        let address = address_at(ipv6, o, at + front);
        let last = (address.low % 256) as usize;
        if !row_fits(ipv6, prefixed, o, from, i, address, met[last]) {
            return Err(Reason::BadSheet.at(at));
        }
        met[last] = true;
    }
    Ok(())
}

// The three sections, in their order.
pub(crate) fn check_sections(form: Form, o: &[u8], c: Counts) -> Result<(), Refusal>
    requires { (counts_allowed (layout_of form) c ≡ true) × (length o.now ≡ end (layout_of form) (family_in form) c) }
    ensures { section_by result ≡ check_sections (layout_of form) (family_in form) o.now c }
{
    let ipv6 = ipv6_in(form);
    let prefixed = prefixed_in(form);
    let from = places_of(form, c);
    check_entries(ipv6, prefixed, Kind::Simple, o, from.asserts, c.asserts)?;
    check_entries(ipv6, prefixed, Kind::RegisterStop, o, from.pairs, c.pairs)?;
    check_rows(ipv6, prefixed, o, from.rows, c.neighbours)
}
