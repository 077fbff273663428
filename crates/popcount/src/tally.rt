// One pass over the contributors: our own values, the tally and what it comes to.
ghost use Rattle.std.specs.Prelude.{◌≡◌};
ghost use Rattle.popcount.specs.Tally.{begun, counted, attribute_of, tallied, tally_of};

use crate::rules::{faster, slower, sum};
use attributes::{Attribute, Values, read_attribute};
use format::Refusal;

// What our own router says of itself.
#[repr(C)]
#[derive(Clone, Copy)]
pub struct Own {
    pub mtu: u16,
    pub flags: u16,
    pub transit: u32,
    pub stub: u32,
    pub minimum_speed: u16,
    pub maximum_speed: u16,
}

// Our own values and the contributors so far. The flags are joined in both ways, by "any" and by "all";
// the option bits are those that every contributor has.
#[derive(Clone, Copy)]
pub(crate) struct Tally {
    mtu: u16,
    any: u16,
    all: u16,
    options: u16,
    transit: u32,
    stub: u32,
    minimum_speed: u16,
    maximum_speed: u16,
    node: u8,
    diameter: u8,
}

// The tally before the first contributor: the six options that are merged are given where none lacks them.
fn begin(own: Own) -> Tally
    ensures { result ≡ begun own }
{
    Tally {
        mtu: own.mtu,
        any: own.flags,
        all: own.flags,
        options: 0xf600,
        transit: own.transit,
        stub: own.stub,
        minimum_speed: own.minimum_speed,
        maximum_speed: own.maximum_speed,
        node: 1,
        diameter: 0,
    }
}

// A tally with one more contributor.
fn count(t: Tally, a: Attribute) -> Tally
    ensures { result ≡ counted t a }
{
    let v = a.values;
    Tally {
        mtu: t.mtu.min(a.mtu),
        any: t.any | a.flags,
        all: t.all & a.flags,
        options: t.options & a.options,
        transit: sum(t.transit, v.transit, 0xffff_ffff),
        stub: sum(t.stub, v.stub, 0xffff_ffff),
        minimum_speed: slower(t.minimum_speed, v.minimum_speed),
        maximum_speed: faster(t.maximum_speed, v.maximum_speed),
        node: sum(t.node as u32, v.node as u32, 255) as u8,
        diameter: t.diameter.max(v.diameter),
    }
}

// The contributors one after another, to the end of the octets.
pub(crate) fn count_all(own: Own, o: &[u8]) -> Result<Tally, Refusal>
    ensures { tallied result ≡ tally_of own o.now }
{
    let mut t = begin(own);
    let mut at = 0;
    // The step is an attribute's own length, so this is no `for`.
    while at < o.len() {
        let read = read_attribute(o, at)?;
        t = count(t, read.attribute);
        at = read.next;
    }
    Ok(t)
}

// The attribute that a tally comes to.
pub(crate) fn attribute_of(e: bool, t: Tally) -> Attribute
    ensures { result ≡ attribute_of e t }
{
    let values = Values {
        transit: t.transit,
        stub: t.stub,
        minimum_speed: t.minimum_speed,
        maximum_speed: t.maximum_speed,
        domain: 0,
        node: t.node,
        diameter: sum(t.diameter as u32, 1, 255) as u8,
        time_zone: 0,
    };
    Attribute {
        e,
        mtu: t.mtu,
        flags: (0xffef & t.any) + (16 & t.all),
        options: t.options,
        values,
    }
}
