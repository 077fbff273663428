// An attribute written: a number, the options, the whole.
ghost use Rattle.std.specs.Prelude.{◌≡◌, cond, ◌+◌, ◌≤◌, length};
ghost use Rattle.octets.specs.Octets.{put, be};
ghost use Rattle.attributes.specs.Options.{sizes};
ghost use Rattle.attributes.specs.Attribute.{attribute_octets, values_octets};
ghost use Rattle.attributes.specs.Answers.{size_by};

use attributes::{
    Attribute, DIAMETER, DOMAIN, MAXIMUM_SPEED, MINIMUM_SPEED, NODE, STUB, TIME_ZONE, TRANSIT,
    Values,
};

// The octets of the options.
pub(crate) fn sizes_of(options: u16) -> usize
    ensures { (result ≡ sizes options) × (result ≤ 32) }
{
    attributes::sizes(options) as usize
}

// The k octets of a number, from the last to the first.
fn put_number(d: &mut [u8], at: usize, k: usize, n: u32)
    requires { at + k ≤ length d.old }
    ensures { d.new ≡ put d.old at (be k n) }
{
    let mut rest = n;
    for i in (at..at + k).rev() {
        d[i] = (rest % 256) as u8;
        rest /= 256;
    }
}

// An option, of which nothing is written where it is not present: the place past it.
fn put_option(d: &mut [u8], at: usize, options: u16, bit: u16, n: u32) -> usize
    requires { at + size_by options bit ≤ length d.old }
    ensures next { result ≡ at + size_by options bit }
    ensures buffer { d.new ≡ put d.old at (be (size_by options bit) n) }
{
    let size = attributes::size_in(options, bit) as usize;
    put_number(d, at, size, n);
    at + size
}

// The options that are present, in order.
fn put_values(d: &mut [u8], start: usize, options: u16, v: Values)
    requires { start + sizes options ≤ length d.old }
    ensures { d.new ≡ put d.old start (values_octets options v) }
{
    let mut at = start;
    at = put_option(d, at, options, TRANSIT, v.transit);
    at = put_option(d, at, options, STUB, v.stub);
    at = put_option(d, at, options, MINIMUM_SPEED, v.minimum_speed as u32);
    at = put_option(d, at, options, MAXIMUM_SPEED, v.maximum_speed as u32);
    at = put_option(d, at, options, DOMAIN, v.domain as u32);
    at = put_option(d, at, options, NODE, v.node as u32);
    at = put_option(d, at, options, DIAMETER, v.diameter as u32);
    put_option(d, at, options, TIME_ZONE, v.time_zone as u32);
}

// The first octet: F is 0, E as the caller says, the type 3.
fn first_octet(e: bool) -> u32
    ensures { result ≡ cond e 0x43 0x03 }
{
    if e {
        return 0x43;
    }
    0x03
}

// An attribute, with the octets of its options, at the start of a buffer.
pub(crate) fn put_attribute(d: &mut [u8], a: Attribute, size: usize)
    requires { (8 + size ≤ length d.old) × (size ≡ sizes a.options) × (size ≤ 32) }
    ensures { d.new ≡ put d.old 0 (attribute_octets a) }
{
    let v = a.values;
    put_number(d, 0, 1, first_octet(a.e));
    put_number(d, 1, 1, (6 + size) as u32);
    put_number(d, 2, 2, a.mtu as u32);
    put_number(d, 4, 2, a.flags as u32);
    put_number(d, 6, 2, a.options as u32);
    put_values(d, 8, a.options, v);
}
