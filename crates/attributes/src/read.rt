// An attribute read: what follows the length, the first two octets, the whole.
ghost use Rattle.std.specs.Prelude.{◌≡◌};
ghost use Rattle.attributes.specs.Attribute.{length_agrees, attribute};
ghost use Rattle.attributes.specs.Answers.{read_by, fields_after};

use crate::options::{Values, read_values, sizes};
use format::{Reason, Refusal};

// An attribute: which options are present is told by `options`, as the attribute has it.
#[repr(C)]
#[derive(Clone, Copy)]
pub struct Attribute {
    pub e: bool,
    pub mtu: u16,
    pub flags: u16,
    pub options: u16,
    pub values: Values,
}

// What reading an attribute finds: the attribute, and the place past it.
#[derive(Clone, Copy)]
pub struct AttributeRead {
    pub attribute: Attribute,
    pub next: usize,
}

// Whether a length is one that the options may have: exactly theirs, or more where an unallocated bit is set.
fn length_agrees(len: u32, options: u16) -> bool
    ensures { result ≡ length_agrees len options }
{
    let known = 6 + sizes(options);
    if options % 256 == 0 {
        return len == known;
    }
    known <= len
}

// What follows the first octet and the length of the attribute that begins at a place.
fn fields_after(
    o: &[u8],
    at: usize,
    first: usize,
    e: bool,
    len: u32,
) -> Result<AttributeRead, Refusal>
    ensures { read_by result ≡ fields_after first e len o.now at }
{
    let Some((mtu, flags_at)) = octets::read::<u16>(o, at) else {
        return Err(Reason::Cut.at(at));
    };
    let Some((flags, options_at)) = octets::read::<u16>(o, flags_at) else {
        return Err(Reason::Cut.at(flags_at));
    };
    let Some((options, values_at)) = octets::read::<u16>(o, options_at) else {
        return Err(Reason::Cut.at(options_at));
    };
    if !length_agrees(len, options) {
        return Err(Reason::BadOption.at(first));
    }
    let (values, ignored_at) = read_values(o, values_at, options)?;
    let ignored = len - (6 + sizes(options));
    let Some(next) = octets::skip(o, ignored_at, ignored as usize) else {
        return Err(Reason::Cut.at(ignored_at));
    };
    let attribute = Attribute {
        e,
        mtu,
        flags,
        options,
        values,
    };
    Ok(AttributeRead { attribute, next })
}

// An attribute: 6 is at the field that is cut, and 13 at the attribute's first octet.
pub fn read_attribute(o: &[u8], at: usize) -> Result<AttributeRead, Refusal>
    ensures { read_by result ≡ attribute o.now at }
{
    let Some((octet, length_at)) = octets::read::<u8>(o, at) else {
        return Err(Reason::Cut.at(at));
    };
    if octet / 128 != 0 || octet % 64 != 3 {
        return Err(Reason::BadOption.at(at));
    }
    let Some((len, next)) = octets::read::<u8>(o, length_at) else {
        return Err(Reason::Cut.at(length_at));
    };
    if len < 6 {
        return Err(Reason::BadOption.at(at));
    }
    let e = octet / 64 % 2 == 1;
    fields_after(o, next, at, e, len as u32)
}
