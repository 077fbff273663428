// The header of a sheet of a form: how it begins, its counts, and whether its offsets and the end agree with them.
ghost use Rattle.std.specs.Prelude.{◌≡◌, true, ◌≤◌};
ghost use Rattle.sections.specs.Layout.{layout_of, family_in};
ghost use Rattle.sections.specs.Checking.{begins, number_in, counts_in, counts_allowed, offsets_agree, check_header, checked_by};

use crate::layout::{counts_allowed, header_size, places_of};
use crate::{Counts, Form};
use format::{Reason, Refusal};
use octets::number;

// Whether the octets before the counts are those of the form: 0xFFFF and its number, or none.
fn begins(form: Form, o: &[u8]) -> bool
    ensures { result ≡ begins (layout_of form) o.now }
{
    match form {
        Form::Base => true,
        Form::Large => number::<u32>(o, 0) == 0xffff_0002,
        Form::Ipv4 => number::<u32>(o, 0) == 0xffff_0003,
        Form::Ipv6 => number::<u32>(o, 0) == 0xffff_0004,
    }
}

// One of the six numbers of a header.
fn number_in(form: Form, o: &[u8], k: usize) -> usize
    requires { k ≤ 5 }
    ensures { result ≡ number_in (layout_of form) o.now k }
{
    match form {
        Form::Base => number::<u16>(o, 2 * k) as usize,
        Form::Large => number::<u32>(o, 4 + 4 * k) as usize,
        Form::Ipv4 => number::<u32>(o, 4 + 4 * k) as usize,
        Form::Ipv6 => number::<u32>(o, 4 + 4 * k) as usize,
    }
}

// The counts that a header says.
fn counts_in(form: Form, o: &[u8]) -> Counts
    ensures { result ≡ counts_in (layout_of form) o.now }
{
    Counts {
        asserts: number_in(form, o, 0),
        pairs: number_in(form, o, 2),
        neighbours: number_in(form, o, 4),
    }
}

// Whether the sections follow one another without gaps, to the end.
fn offsets_agree(form: Form, o: &[u8], c: Counts) -> bool
    requires { counts_allowed (layout_of form) c ≡ true }
    ensures { result ≡ offsets_agree (layout_of form) (family_in form) o.now c }
{
    let due = places_of(form, c);
    if number_in(form, o, 1) != due.asserts {
        return false;
    }
    if number_in(form, o, 3) != due.pairs {
        return false;
    }
    if number_in(form, o, 5) != due.rows {
        return false;
    }
    o.len() == due.end
}

// The header, how it begins, the counts, the offsets and the end.
pub(crate) fn check_header(form: Form, o: &[u8]) -> Result<Counts, Refusal>
    ensures { checked_by result ≡ check_header (layout_of form) (family_in form) o.now }
{
    if o.len() < header_size(form) {
        return Err(Reason::BadSheet.at(0));
    }
    if !begins(form, o) {
        return Err(Reason::BadSheet.at(0));
    }
    let c = counts_in(form, o);
    if !counts_allowed(form, c) {
        return Err(Reason::BadSheet.at(0));
    }
    if !offsets_agree(form, o, c) {
        return Err(Reason::BadSheet.at(0));
    }
    Ok(c)
}
