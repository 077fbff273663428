// The forms of a sheet: which one a sheet has, of which family its entries are, which counts it allows, and where its sections begin.
ghost use Rattle.std.specs.Prelude.{◌≡◌, ◌≤◌};
ghost use Rattle.sections.specs.Layout.{layout_of, form_of, ipv6_in, prefixed_in, family_in, is_of, form_by, header_size};
ghost use Rattle.sections.specs.declared.layout.Form.TheVariants.{Large};
ghost use Rattle.sections.specs.Checking.{counts_allowed};
ghost use Rattle.sections.specs.Sections.{places_of};

use crate::Counts;
use crate::row::row_size;
use entries::entry_size;
use format::Kind;
use neighbours::ROWS;
use octets::number;

// The form of a sheet: that of 01, with numbers of 16 bits, that of E6, with numbers of 32, and those of the two families. The first two are IPv4's, and
// their entries have no front.
#[derive(Clone, Copy)]
pub enum Form {
    Base,
    Large,
    Ipv4,
    Ipv6,
}

// Where the three sections begin, and where the last ends.
#[derive(Clone, Copy)]
pub struct Places {
    pub asserts: usize,
    pub pairs: usize,
    pub rows: usize,
    pub end: usize,
}

// The form that a sheet has, by its first 32 bits. A number that is none of a form's is left to the header's check.
pub fn form_of(o: &[u8]) -> Form
    ensures { result ≡ form_of o.now }
{
    if number::<u16>(o, 0) != 0xffff {
        return Form::Base;
    }
    let number = number::<u16>(o, 2) as usize;
    if number == 3 {
        return Form::Ipv4;
    }
    if number == 4 {
        return Form::Ipv6;
    }
    Form::Large
}

// The form that is written.
pub fn form_for(ipv6: bool) -> Form
    ensures { result ≡ form_by ipv6 }
{
    if ipv6 {
        return Form::Ipv6;
    }
    Form::Ipv4
}

// Whether the addresses of a form's sheets are IPv6's.
pub fn ipv6_in(form: Form) -> bool
    ensures { result ≡ ipv6_in form }
{
    match form {
        Form::Base => false,
        Form::Large => false,
        Form::Ipv4 => false,
        Form::Ipv6 => true,
    }
}

// Whether their entries and rows begin with the front of the family.
pub fn prefixed_in(form: Form) -> bool
    ensures { result ≡ prefixed_in form }
{
    match form {
        Form::Base => false,
        Form::Large => false,
        Form::Ipv4 => true,
        Form::Ipv6 => true,
    }
}

// Whether a sheet of a form is of a family.
pub(crate) fn is_of(ipv6: bool, form: Form) -> bool
    ensures { result ≡ is_of ipv6 form }
{
    if ipv6 {
        return ipv6_in(form);
    }
    !ipv6_in(form)
}

// The octets of a header.
pub(crate) fn header_size(form: Form) -> usize
    ensures { (result ≡ header_size (layout_of form)) × (result ≤ 28) }
{
    match form {
        Form::Base => 12,
        Form::Large => 28,
        Form::Ipv4 => 28,
        Form::Ipv6 => 28,
    }
}

// The most entries of each section since E6.
fn newer_limits() -> Counts
    ensures { result ≡ (layout_of Large).limits }
{
    Counts {
        asserts: 8192,
        pairs: 8192,
        neighbours: ROWS,
    }
}

// The most entries of each section.
fn limits(form: Form) -> Counts
    ensures { result ≡ (layout_of form).limits }
{
    match form {
        Form::Base => Counts {
            asserts: 1024,
            pairs: 1024,
            neighbours: 16,
        },
        Form::Large => newer_limits(),
        Form::Ipv4 => newer_limits(),
        Form::Ipv6 => newer_limits(),
    }
}

// Whether no count is over its limit.
pub fn counts_allowed(form: Form, c: Counts) -> bool
    ensures { result ≡ counts_allowed (layout_of form) c }
{
    let most = limits(form);
    if most.asserts < c.asserts {
        return false;
    }
    if most.pairs < c.pairs {
        return false;
    }
    c.neighbours <= most.neighbours
}

// The places of a sheet with so many entries. Counts over a limit have none.
pub fn places_of(form: Form, c: Counts) -> Places
    ensures { result ≡ places_of (layout_of form) (family_in form) c }
{
    if !counts_allowed(form, c) {
        return Places {
            asserts: 0,
            pairs: 0,
            rows: 0,
            end: 0,
        };
    }
    let ipv6 = ipv6_in(form);
    let prefixed = prefixed_in(form);
    let asserts = header_size(form);
    let pairs = asserts + entry_size(ipv6, prefixed, Kind::Simple) * c.asserts;
    let rows = pairs + entry_size(ipv6, prefixed, Kind::RegisterStop) * c.pairs;
    let end = rows + row_size(ipv6, prefixed) * c.neighbours;
    Places {
        asserts,
        pairs,
        rows,
        end,
    }
}
