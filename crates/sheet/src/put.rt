// The header of a sheet and its rows, written into a lent buffer, in the form that is written of a family. Each function knows that its octets fit.
ghost use Rattle.std.specs.Prelude.{◌≡◌, true, cond, ◌+◌, ◌*◌, ◌≤◌, length};
ghost use Rattle.octets.specs.Octets.{be, put, ◌&◌};
ghost use Rattle.format.specs.Family.{family_of};
ghost use Rattle.format.specs.Path.{number_of};
ghost use Rattle.format.specs.Record.{each};
ghost use Rattle.neighbours.specs.Rows.{most, used};
ghost use Rattle.sections.specs.Layout.{layout_of, form_by, row_size, header_octets};
ghost use Rattle.sections.specs.Contents.{row_octets};
ghost use Rattle.sections.specs.Checking.{counts_allowed};

use addresses::width;
use entries::front_word;
use format::Address;
use neighbours::{Neighbour, Table};
use octets::write;
use sections::{Counts, form_for, places_of, row_size};

// A count and the offset of its section.
fn put_pair(d: &mut [u8], at: usize, count: u32, offset: u32)
    requires { at + 8 ≤ length d.old }
    ensures { d.new ≡ put d.old at (be 4 count & be 4 offset) }
{
    write::<u32>(d, at, count);
    write::<u32>(d, at + 4, offset);
}

// What a sheet of a family begins with, as one number: 0xFFFF, and 3 or 4.
fn form_word(ipv6: bool) -> u32
    ensures { be 4 result ≡ (layout_of (form_by ipv6)).front }
{
    if ipv6 {
        return 0xffff_0004;
    }
    0xffff_0003
}

// 0xFFFF and the number of the family, then three counts, each with the offset of its section.
pub(crate) fn put_header(ipv6: bool, d: &mut [u8], c: Counts)
    requires { (28 ≤ length d.old) × (counts_allowed (layout_of (form_by ipv6)) c ≡ true) }
    ensures { d.new ≡ put d.old 0 (header_octets (layout_of (form_by ipv6)) (family_of ipv6) c) }
{
    let s = places_of(form_for(ipv6), c);
    write::<u32>(d, 0, form_word(ipv6));
    put_pair(d, 4, c.asserts as u32, s.asserts as u32);
    put_pair(d, 12, c.pairs as u32, s.pairs as u32);
    put_pair(d, 20, c.neighbours as u32, s.rows as u32);
}

// 1: has a priority; 2: packs.
fn flags_of(row: Neighbour) -> u8
    ensures { result ≡ cond row.has_priority 1 0 + cond row.packs 2 0 }
{
    if row.has_priority {
        if row.packs {
            return 3;
        }
        return 1;
    }
    if row.packs {
        return 2;
    }
    0
}

// The octets of an address.
fn put_address(ipv6: bool, d: &mut [u8], at: usize, a: Address)
    requires { at + (family_of ipv6).width ≤ length d.old }
    ensures { d.new ≡ put d.old at (be (family_of ipv6).width (number_of a)) }
{
    if ipv6 {
        write::<u64>(d, at, a.high);
        write::<u64>(d, at + 8, a.low);
        return;
    }
    write::<u32>(d, at, (a.low % 4294967296) as u32);
}

// What follows the address in a row.
fn put_rest(d: &mut [u8], at: usize, row: Neighbour)
    requires { at + 8 ≤ length d.old }
    ensures { d.new ≡ put d.old at (be 4 row.priority & be 1 (cond row.has_priority 1 0 + cond row.packs 2 0) & be 1 0 & be 2 row.holdtime) }
{
    write::<u32>(d, at, row.priority);
    write::<u8>(d, at + 4, flags_of(row));
    write::<u8>(d, at + 5, 0);
    write::<u16>(d, at + 6, row.holdtime);
}

// The octets of a row.
fn put_row(ipv6: bool, d: &mut [u8], at: usize, row: Neighbour)
    requires { at + row_size (family_of ipv6) ≤ length d.old }
    ensures { d.new ≡ put d.old at (row_octets (family_of ipv6) row) }
{
    write::<u32>(d, at, front_word(ipv6));
    put_address(ipv6, d, at + 4, row.address);
    put_rest(d, at + 4 + width(ipv6), row);
}

// The rows in use.
pub(crate) fn put_rows(ipv6: bool, d: &mut [u8], at: usize, table: Table)
    requires { (table.count ≤ most) × (at + row_size (family_of ipv6) * table.count ≤ length d.old) }
    ensures { d.new ≡ put d.old at (each (row_octets (family_of ipv6)) (used table)) }
{
    let size = row_size(ipv6, true);
    for (i, row) in table.rows[..table.count].iter().enumerate() {
        put_row(ipv6, d, at + size * i, *row);
    }
}
