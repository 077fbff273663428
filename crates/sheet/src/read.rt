// Reading a sheet of any form: it is checked, then its two lists are copied and its rows gathered. 8 is the last refusal.
ghost use Rattle.std.specs.Prelude.{◌≡◌, [], ◌+◌, ◌*◌, ◌≤◌, length};
ghost use Rattle.format.specs.Outcome.{gives, refuses, reason_number};
ghost use Rattle.entries.specs.Kinds.{family_with};
ghost use Rattle.neighbours.specs.Rows.{most, table_of};
ghost use Rattle.sections.specs.Layout.{layout_of, form_of, family_in, row_size};
ghost use Rattle.sections.specs.Contents.{rows_at};
ghost use Rattle.sections.specs.Checking.{checking};
ghost use Rattle.sheet.specs.Calls.{read_checked, read_sheet, found_by};

use crate::SheetRead;
use crate::copy::copy_entries;
use entries::entry_size;
use format::{AddressFamily, Kind, Reason, Refusal};
use neighbours::Table;
use sections::{Counts, check_sheet, form_of, ipv6_in, places_of, prefixed_in, row_at, row_size};

// A refusal, with a table without neighbours.
fn refused(why: Refusal) -> SheetRead
    ensures found { found_by result.found ≡ refuses (reason_number why.reason) why.place }
    ensures table { result.table ≡ table_of [] }
{
    SheetRead {
        table: Table::empty(),
        found: Err(why),
    }
}

// The table of n rows, one after another.
fn gather(ipv6: bool, prefixed: bool, o: &[u8], at: usize, n: usize) -> Table
    requires { (n ≤ most) × (at + row_size (family_with ipv6 prefixed) * n ≤ length o.now) }
    ensures { result ≡ table_of (rows_at (family_with ipv6 prefixed) o.now at n) }
{
    let size = row_size(ipv6, prefixed);
    let mut table = Table::empty();
    for i in 0..n {
        table.rows[i] = row_at(ipv6, prefixed, o, at + size * i);
    }
    table.count = n;
    table
}

// The lists and the table of a sheet that passed the check.
fn deliver(o: &[u8], c: Counts, asserts: &mut [u8], pairs: &mut [u8]) -> SheetRead
    requires { checking (layout_of (form_of o.now)) (family_in (form_of o.now)) o.now ≡ gives c }
    ensures found { found_by result.found ≡ (read_checked (form_of o.now) o.now asserts.old pairs.old (gives c)).answer }
    ensures table { result.table ≡ (read_checked (form_of o.now) o.now asserts.old pairs.old (gives c)).table }
    ensures asserts { asserts.new ≡ (read_checked (form_of o.now) o.now asserts.old pairs.old (gives c)).asserts }
    ensures pairs { pairs.new ≡ (read_checked (form_of o.now) o.now asserts.old pairs.old (gives c)).pairs }
{
    let form = form_of(o);
    let ipv6 = ipv6_in(form);
    if asserts.len() < entry_size(ipv6, true, Kind::Simple) * c.asserts {
        return refused(Reason::NoRoom.at(0));
    }
    if pairs.len() < entry_size(ipv6, true, Kind::RegisterStop) * c.pairs {
        return refused(Reason::NoRoom.at(0));
    }
    let s = places_of(form, c);
    copy_entries(form, Kind::Simple, o, s.asserts, c.asserts, asserts);
    copy_entries(form, Kind::RegisterStop, o, s.pairs, c.pairs, pairs);
    SheetRead {
        table: gather(ipv6, prefixed_in(form), o, s.rows, c.neighbours),
        found: Ok(c),
    }
}

// Reads a sheet of a family: its two entry lists into lent buffers, and its table.
pub fn read_sheet(
    family: AddressFamily,
    o: &[u8],
    asserts: &mut [u8],
    pairs: &mut [u8],
) -> SheetRead
    ensures found { found_by result.found ≡ (read_sheet family o.now asserts.old pairs.old).answer }
    ensures table { result.table ≡ (read_sheet family o.now asserts.old pairs.old).table }
    ensures asserts { asserts.new ≡ (read_sheet family o.now asserts.old pairs.old).asserts }
    ensures pairs { pairs.new ≡ (read_sheet family o.now asserts.old pairs.old).pairs }
{
    match check_sheet(family, o) {
        Err(r) => refused(r),
        Ok(c) => deliver(o, c, asserts, pairs),
    }
}
