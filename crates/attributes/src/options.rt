// The options of an attribute: their bits and values; how many octets each has; their values, read one after another.
ghost use Rattle.std.specs.Prelude.{◌≡◌, ◌≤◌};
ghost use Rattle.attributes.specs.Options.{has_bit, sizes};
ghost use Rattle.attributes.specs.Attribute.{values};
ghost use Rattle.attributes.specs.Answers.{found, size_for, size_by, option_at};

use format::{Reason, Refusal};
use octets::Unsigned;

// The option bits, the highest first.
pub const TRANSIT: u16 = 0x8000;

pub const STUB: u16 = 0x4000;

pub const MINIMUM_SPEED: u16 = 0x2000;

pub const MAXIMUM_SPEED: u16 = 0x1000;

pub const DOMAIN: u16 = 0x0800;

pub const NODE: u16 = 0x0400;

pub const DIAMETER: u16 = 0x0200;

pub const TIME_ZONE: u16 = 0x0100;

// The values of the options: 0 where one is not present.
#[repr(C)]
#[derive(Clone, Copy)]
pub struct Values {
    pub transit: u32,
    pub stub: u32,
    pub minimum_speed: u16,
    pub maximum_speed: u16,
    pub domain: u8,
    pub node: u8,
    pub diameter: u8,
    pub time_zone: u8,
}

// Whether a word of option bits has a bit. By division, since `size_in` promises it of any number, and not of the bits alone.
fn has_bit(options: u16, bit: u16) -> bool
    ensures { result ≡ has_bit options bit }
{
    bit != 0 && options / bit % 2 == 1
}

// How many octets an option has, by its bit.
fn size_for(bit: u16) -> u32
    ensures { (result ≡ size_for bit) × (result ≤ 4) }
{
    match bit {
        STUB.. => 4,
        MAXIMUM_SPEED.. => 2,
        _ => 1,
    }
}

// The octets of an option: none where it is not present.
pub fn size_in(options: u16, bit: u16) -> u32
    ensures { (result ≡ size_by options bit) × (result ≤ 4) }
{
    if has_bit(options, bit) {
        return size_for(bit);
    }
    0
}

// The octets of the options present.
pub fn sizes(options: u16) -> u32
    ensures { (result ≡ sizes options) × (result ≤ 32) }
{
    let counts = size_in(options, TRANSIT) + size_in(options, STUB);
    let speeds = size_in(options, MINIMUM_SPEED) + size_in(options, MAXIMUM_SPEED);
    let domain = size_in(options, DOMAIN) + size_in(options, NODE);
    let diameter = size_in(options, DIAMETER) + size_in(options, TIME_ZONE);
    counts + speeds + domain + diameter
}

// An option's value, and the place past it: 0 and the place itself where the option is not present.
fn value<T: Unsigned>(o: &[u8], at: usize, options: u16, bit: u16) -> Result<(T, usize), Refusal>
    ensures { found T.number result ≡ option_at T.SIZE options bit o.now at }
{
    if has_bit(options, bit) {
        let Some(field) = octets::read::<T>(o, at) else {
            return Err(Reason::Cut.at(at));
        };
        return Ok(field);
    }
    Ok((T::of_wide(0), at))
}

// The options' values, and the place past them.
pub(crate) fn read_values(o: &[u8], at: usize, options: u16) -> Result<(Values, usize), Refusal>
    ensures { found (λ v. v) result ≡ values options o.now at }
{
    let (transit, at) = value::<u32>(o, at, options, TRANSIT)?;
    let (stub, at) = value::<u32>(o, at, options, STUB)?;
    let (minimum_speed, at) = value::<u16>(o, at, options, MINIMUM_SPEED)?;
    let (maximum_speed, at) = value::<u16>(o, at, options, MAXIMUM_SPEED)?;
    let (domain, at) = value::<u8>(o, at, options, DOMAIN)?;
    let (node, at) = value::<u8>(o, at, options, NODE)?;
    let (diameter, at) = value::<u8>(o, at, options, DIAMETER)?;
    let (time_zone, at) = value::<u8>(o, at, options, TIME_ZONE)?;
    let all = Values {
        transit,
        stub,
        minimum_speed,
        maximum_speed,
        domain,
        node,
        diameter,
        time_zone,
    };
    Ok((all, at))
}
