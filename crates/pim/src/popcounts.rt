// Pop-Count attributes.
ghost use Rattle.std.specs.Prelude.{◌≡◌};
ghost use Rattle.attributes.specs.Speed.{compared};
ghost use Rattle.attributes.specs.Attribute.{attribute};
ghost use Rattle.attributes.specs.Answers.{read_by};
ghost use Rattle.popcount.specs.Merging.{merging};
ghost use Rattle.pim.specs.Answers.{length_answer};
ghost use Rattle.pim.specs.Stored.{no_attribute, attribute_answer, order_number};

use crate::answers::{LengthAnswer, Refusal, accepted, length_answer};
use popcount::{Attribute, AttributeRead, Own, Values};
use std::cmp::Ordering;

#[repr(C)]
#[derive(Clone, Copy)]
pub struct AttributeAnswer {
    pub refusal: Refusal,
    pub next: usize,
    pub attribute: Attribute,
}

// What stands for an attribute where there is none.
fn no_attribute() -> Attribute
    ensures { result ≡ no_attribute }
{
    Attribute {
        e: false,
        mtu: 0,
        flags: 0,
        options: 0,
        values: Values {
            transit: 0,
            stub: 0,
            minimum_speed: 0,
            maximum_speed: 0,
            domain: 0,
            node: 0,
            diameter: 0,
            time_zone: 0,
        },
    }
}

fn attribute_answer(a: Result<AttributeRead, format::Refusal>) -> AttributeAnswer
    ensures { result ≡ attribute_answer (read_by a) }
{
    match a {
        Ok(read) => AttributeAnswer {
            refusal: accepted(),
            next: read.next,
            attribute: read.attribute,
        },
        Err(r) => AttributeAnswer {
            refusal: Refusal::from(r),
            next: 0,
            attribute: no_attribute(),
        },
    }
}

// The attribute at a place.
#[unsafe(no_mangle)]
pub extern "C" fn pim_popcount_read(o: &[u8], at: usize) -> AttributeAnswer
    ensures { result ≡ attribute_answer (attribute o.now at) }
{
    attribute_answer(popcount::read_attribute(o, at))
}

fn order_number(o: Ordering) -> u8
    ensures { result ≡ order_number o }
{
    match o {
        Ordering::Less => 0,
        Ordering::Equal => 1,
        Ordering::Greater => 2,
    }
}

// How one speed stands to another.
#[unsafe(no_mangle)]
pub extern "C" fn pim_popcount_compare_speeds(a: u16, b: u16) -> u8
    ensures { result ≡ order_number (compared a b) }
{
    order_number(popcount::compare_speeds(a, b))
}

// The attributes from downstream and our own values, merged.
#[unsafe(no_mangle)]
pub extern "C" fn pim_popcount_merge(
    own: Own,
    e: bool,
    contributors: &[u8],
    d: &mut [u8],
) -> LengthAnswer
    ensures answer { result ≡ length_answer (merging own e contributors.now d.old).answer }
    ensures buffer { d.new ≡ (merging own e contributors.now d.old).buffer }
{
    length_answer(popcount::merge(own, e, contributors, d))
}
