// The sections of a stored sheet, and whether a sheet is valid. Reading and writing a sheet are in `sheet`.
//
// layout.rt      the forms, which counts they allow, and where the sections begin
// row.rt         a neighbour's row
// head.rt        the header
// section.rt     the sections one by one
#![tactic(auto)]

mod head;
mod layout;
mod row;
mod section;

ghost use Rattle.std.specs.Prelude.{◌≡◌};
ghost use Rattle.format.specs.Outcome.{refuses};
ghost use Rattle.sections.specs.Checking.{check_sheet, checked_by};

use format::{AddressFamily, Reason, Refusal, is_ipv6};
use head::check_header;
use layout::is_of;
pub use layout::{
    Form, Places, counts_allowed, form_for, form_of, ipv6_in, places_of, prefixed_in,
};
pub use row::{row_at, row_size};
use section::check_sections;

// How many entries each section of a sheet has.
#[repr(C)]
#[derive(Clone, Copy)]
pub struct Counts {
    pub asserts: usize,
    pub pairs: usize,
    pub neighbours: usize,
}

// Checks a sheet of any form, of a family: how many entries its sections have, or 14 with the place at fault.
pub fn check_sheet(family: AddressFamily, o: &[u8]) -> Result<Counts, Refusal>
    ensures { checked_by result ≡ check_sheet family o.now }
{
    let form = form_of(o);
    if !is_of(is_ipv6(family), form) {
        return Err(Reason::BadSheet.at(0));
    }
    let c = check_header(form, o)?;
    check_sections(form, o, c)?;
    Ok(c)
}
