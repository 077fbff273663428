// Writing a sheet, always in the newest form of its family: what is asked first, in the order 10, 14, 8, 7, then the octets.
ghost use Rattle.std.specs.Prelude.{◌≡◌, ◌&&◌, cond, length};
ghost use Rattle.octets.specs.Octets.{put};
ghost use Rattle.format.specs.Outcome.{gives, refuses};
ghost use Rattle.format.specs.Family.{family_of};
ghost use Rattle.format.specs.Entry.{whole};
ghost use Rattle.format.specs.Packing.{first_bad};
ghost use Rattle.format.specs.Writing.{length_of, length_by};
ghost use Rattle.entries.specs.Kinds.{entries_for};
ghost use Rattle.neighbours.specs.Rows.{valid};
ghost use Rattle.sections.specs.Layout.{layout_of, form_by, asserts_in, pairs_in};
ghost use Rattle.sections.specs.Contents.{sheet_octets};
ghost use Rattle.sections.specs.Checking.{counts_allowed};
ghost use Rattle.sheet.specs.Calls.{contents_of, counted, at_zero, asked, write_sheet};

use crate::copy::copy;
use crate::put::{put_header, put_rows};
use entries::{entry_size, first_bad};
use format::{AddressFamily, Kind, Reason, Refusal, is_ipv6};
use neighbours::{Table, is_valid};
use sections::{Counts, counts_allowed, form_for, places_of};

// Whether both lists are whole.
fn are_whole(ipv6: bool, asserts: &[u8], pairs: &[u8]) -> bool
    ensures { result ≡ whole (asserts_in (family_of ipv6)) asserts.now && whole (pairs_in (family_of ipv6)) pairs.now }
{
    if asserts.len() % entry_size(ipv6, true, Kind::Simple) != 0 {
        return false;
    }
    pairs.len() % entry_size(ipv6, true, Kind::RegisterStop) == 0
}

// The counts of two lists and so many rows.
fn counts_of(ipv6: bool, asserts: &[u8], pairs: &[u8], rows: usize) -> Counts
    ensures { result ≡ counted (family_of ipv6) asserts.now pairs.now rows }
{
    Counts {
        asserts: asserts.len() / entry_size(ipv6, true, Kind::Simple),
        pairs: pairs.len() / entry_size(ipv6, true, Kind::RegisterStop),
        neighbours: rows,
    }
}

// Whether no count is over its limit, and the table is one that a sheet may hold.
fn are_storable(ipv6: bool, c: Counts, table: Table) -> bool
    ensures { result ≡ counts_allowed (layout_of (form_by ipv6)) c && valid (family_of ipv6) table }
{
    if counts_allowed(form_for(ipv6), c) {
        return is_valid(ipv6, table);
    }
    false
}

// Whether every entry of a list is allowed.
fn all_allowed(ipv6: bool, kind: Kind, e: &[u8]) -> bool
    ensures { at_zero (first_bad (entries_for ipv6 kind) e.now 0) ≡ cond result (gives tt) (refuses 7 0) }
{
    first_bad(ipv6, true, kind, e, 0).is_none()
}

// The length of the sheet that is due, or a refusal.
fn due(
    ipv6: bool,
    asserts: &[u8],
    pairs: &[u8],
    table: Table,
    room: usize,
) -> Result<usize, Refusal>
    ensures { length_by result ≡ length_of (asked (layout_of (form_by ipv6)) (family_of ipv6) asserts.now pairs.now table room) }
{
    if !are_whole(ipv6, asserts, pairs) {
        return Err(Reason::BadList.at(0));
    }
    let c = counts_of(ipv6, asserts, pairs, table.count);
    if !are_storable(ipv6, c, table) {
        return Err(Reason::BadSheet.at(0));
    }
    let n = places_of(form_for(ipv6), c).end;
    if room < n {
        return Err(Reason::NoRoom.at(0));
    }
    if !all_allowed(ipv6, Kind::Simple, asserts) {
        return Err(Reason::BadAddress.at(0));
    }
    if !all_allowed(ipv6, Kind::RegisterStop, pairs) {
        return Err(Reason::BadAddress.at(0));
    }
    Ok(n)
}

// The octets of a sheet that is due.
fn fill(ipv6: bool, asserts: &[u8], pairs: &[u8], table: Table, d: &mut [u8])
    requires { asked (layout_of (form_by ipv6)) (family_of ipv6) asserts.now pairs.now table (length d.old) ≡ gives (sheet_octets (layout_of (form_by ipv6)) (family_of ipv6) (contents_of asserts.now pairs.now table)) }
    ensures { d.new ≡ put d.old 0 (sheet_octets (layout_of (form_by ipv6)) (family_of ipv6) (contents_of asserts.now pairs.now table)) }
{
    let c = counts_of(ipv6, asserts, pairs, table.count);
    let s = places_of(form_for(ipv6), c);
    put_header(ipv6, d, c);
    copy(asserts, 0, asserts.len(), d, s.asserts);
    copy(pairs, 0, pairs.len(), d, s.pairs);
    put_rows(ipv6, d, s.rows, table);
}

// Writes the one sheet of two entry lists and a table of a family.
pub fn write_sheet(
    family: AddressFamily,
    asserts: &[u8],
    pairs: &[u8],
    table: Table,
    d: &mut [u8],
) -> Result<usize, Refusal>
    ensures answer { length_by result ≡ (write_sheet family asserts.now pairs.now table d.old).answer }
    ensures buffer { d.new ≡ (write_sheet family asserts.now pairs.now table d.old).buffer }
{
    let ipv6 = is_ipv6(family);
    let n = due(ipv6, asserts, pairs, table, d.len())?;
    fill(ipv6, asserts, pairs, table, d);
    Ok(n)
}
