// The known options, in one place: what each begins with, by which it is known, its value's length, whether one was given,
// and so reading one option, whichever it is.
ghost use Rattle.std.specs.Prelude.{◌≡◌, List, ℕ, ◌+◌, ◌<◌, length, take, drop};
ghost use Rattle.octets.specs.Field.{ignored};
ghost use Rattle.hello.specs.Options.{Said, named, length_of, given, hear, option};
ghost use Rattle.hello.specs.Answers.{said_by, said_at, beginning, is_known, refused_as, taken, stepped};

use format::{Reason, Refusal};
use octets::number;

// What each known option begins with: its type and its length. The packing capability is nothing more.
pub(crate) const HOLDTIME: [u8; 4] = *b"\x00\x01\x00\x02";

pub(crate) const PRIORITY: [u8; 4] = *b"\x00\x13\x00\x04";

pub(crate) const CAPABILITY: [u8; 4] = *b"\x00\x28\x00\x00";

// The options that are known, and any other.
#[derive(Clone, Copy)]
pub(crate) enum Known {
    Holdtime,
    Priority,
    Packing,
    Other,
}

// What a Hello says: the values of the options that are there.
#[derive(Clone, Copy)]
pub(crate) struct Heard {
    pub holdtime: Option<u16>,
    pub priority: Option<u32>,
    pub packing: bool,
}

// Where the value of each known option is that was read so far, that of the packing capability too: a bool would leave octets that
// no field has, and the loop over the options would copy them through memory.
#[derive(Clone, Copy)]
pub(crate) struct ValuePlaces {
    pub holdtime: Option<usize>,
    pub priority: Option<usize>,
    pub packing: Option<usize>,
}

// The option that begins with these four octets. A match would need each of them as a number beside its octets.
fn option_beginning(head: u32) -> Known
    ensures { result ≡ beginning head }
{
    if head == number::<u32>(&HOLDTIME, 0) {
        return Known::Holdtime;
    }
    if head == number::<u32>(&PRIORITY, 0) {
        return Known::Priority;
    }
    if head == number::<u32>(&CAPABILITY, 0) {
        return Known::Packing;
    }
    Known::Other
}

// The option of a type.
#[tactic(auto, unfolding(crate::specs::Options::named, crate::specs::Options::among, crate::specs::Options::type_of))]
fn option_named(kind: u32) -> Known
    ensures { result ≡ named kind }
{
    match kind {
        1 => Known::Holdtime,
        19 => Known::Priority,
        40 => Known::Packing,
        _ => Known::Other,
    }
}

// Whether a type is that of a known option.
fn is_known(kind: u32) -> bool
    ensures { result ≡ is_known (named kind) }
{
    match option_named(kind) {
        Known::Holdtime => true,
        Known::Priority => true,
        Known::Packing => true,
        Known::Other => false,
    }
}

// Whether an option was given.
pub(crate) fn was_given(h: Heard, k: Known) -> bool
    ensures { result ≡ given (said_by h) k }
{
    match k {
        Known::Holdtime => h.holdtime.is_some(),
        Known::Priority => h.priority.is_some(),
        Known::Packing => h.packing,
        Known::Other => false,
    }
}

// The places once an option with its value at a place was read too.
fn places_with(p: ValuePlaces, k: Known, at: usize) -> ValuePlaces
    ensures { (o : List ℕ) (n : ℕ) → said_at o result ≡ hear (said_at o p) k (take (length_of k n) (drop at o)) }
{
    let mut places = p;
    match k {
        Known::Holdtime => places.holdtime = Some(at),
        Known::Priority => places.priority = Some(at),
        Known::Packing => places.packing = Some(at),
        Known::Other => {}
    }
    places
}

// A type that is cut, or the length past it.
fn cut_head(m: &[u8], at: usize) -> Result<(ValuePlaces, usize), Refusal>
    requires { length m.now < at + 4 }
    ensures { (s : Said) → stepped m.now result ≡ option s m.now at }
{
    let Some((_, length_at)) = octets::read::<u16>(m, at) else {
        return Err(Reason::Cut.at(at));
    };
    Err(Reason::Cut.at(length_at))
}

// Whether the option that was found by its four octets, of this type, is refused: a known one was given before, and any other
// of a known type has a wrong length.
fn is_refused(k: Known, kind: u32, p: ValuePlaces) -> bool
    ensures { (o : List ℕ) → result ≡ refused_as (said_at o p) k kind }
{
    match k {
        Known::Holdtime => p.holdtime.is_some(),
        Known::Priority => p.priority.is_some(),
        Known::Packing => p.packing.is_some(),
        Known::Other => is_known(kind),
    }
}

// An option whose value, of n octets at a place, is there, or is cut.
fn taken(
    m: &[u8],
    at: usize,
    n: usize,
    places: ValuePlaces,
) -> Result<(ValuePlaces, usize), Refusal>
    ensures { stepped m.now result ≡ taken (said_at m.now places) (ignored n m.now at) }
{
    let Some(next) = octets::skip(m, at, n) else {
        return Err(Reason::Cut.at(at));
    };
    Ok((places, next))
}

// An option: 6 is at the field that is cut, and 13, before the value is looked at, at the option's first octet. A known one is
// found by its type and length together. So the length of its value is a literal, and the next place does not wait for octets.
pub(crate) fn option(m: &[u8], at: usize, p: ValuePlaces) -> Result<(ValuePlaces, usize), Refusal>
    ensures { stepped m.now result ≡ option (said_at m.now p) m.now at }
{
    let Some((head, value_at)) = octets::read::<u32>(m, at) else {
        return cut_head(m, at);
    };
    let k = option_beginning(head);
    if is_refused(k, head / 65536, p) {
        return Err(Reason::BadOption.at(at));
    }
    let places = places_with(p, k, value_at);
    match k {
        Known::Holdtime => taken(m, value_at, 2, places),
        Known::Priority => taken(m, value_at, 4, places),
        Known::Packing => taken(m, value_at, 0, places),
        Known::Other => taken(m, value_at, (head % 65536) as usize, places),
    }
}
