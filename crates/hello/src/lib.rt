// Reading Hellos: holdtime, DR priority and the packing capability out of a Hello's options. First the options
// up to the end, by the places of their values; then what these say; then the whole message, which is the public
// call. It is total; what it answers is a definition of specs/. The known options, and reading one, are in
// table.rt; Hellos are written in write.rt.
#![tactic(auto)]

mod table;
mod write;

ghost use Rattle.std.specs.Prelude.{◌≡◌, length};
ghost use Rattle.format.specs.Family.{family_named};
ghost use Rattle.format.specs.Reader.{from};
ghost use Rattle.hello.specs.Options.{nothing, options};
ghost use Rattle.hello.specs.Hello.{holdtime_of, hello_of, hello_options, options_fine, read_hello};
ghost use Rattle.hello.specs.Answers.{if_placed, priority_at, said_at, heard, hello_by, ZeroPriority, told, Unannounced, checked};

use format::{AddressFamily, Kind, Path, Reason, Refusal, is_ipv6};
use table::{ValuePlaces, option};
pub use write::write_hello;

// What a Hello says: the priority is 0 where none is announced. C has this struct too, so the priority is a flag and a number.
#[repr(C)]
#[derive(Clone, Copy)]
pub struct Hello {
    pub holdtime: u16,
    pub has_priority: bool,
    pub priority: u32,
    pub packing: bool,
}

// The options from a place to the end of the octets.
fn options(m: &[u8], start: usize) -> Result<ValuePlaces, Refusal>
    ensures { heard m.now result ≡ from start (options (length m.now) nothing) m.now }
{
    let mut p = ValuePlaces {
        holdtime: None,
        priority: None,
        packing: None,
    };
    let mut at = start;
    // The step is an option's own length, so this is no `for`.
    while at < m.len() {
        let (places, next) = option(m, at, p)?;
        p = places;
        at = next;
    }
    Ok(p)
}

// The holdtime with its value at a place, 105 s where it is absent.
fn holdtime_of(m: &[u8], at: Option<usize>) -> u16
    ensures { result ≡ holdtime_of (if_placed 2 m.now at) }
{
    match at {
        Some(at) => octets::number::<u16>(m, at),
        None => 105,
    }
}

// The priority with its value at a place, 0 where none is announced.
fn priority_of(m: &[u8], at: Option<usize>) -> u32
    ensures { result ≡ priority_at m.now at }
{
    match at {
        Some(at) => octets::number::<u32>(m, at),
        None => 0,
    }
}

// What the options say, with what was not announced filled in.
fn hello_of(m: &[u8], p: ValuePlaces) -> Hello
    ensures says { hello_by result ≡ hello_of (said_at m.now p) }
    ensures zero { ZeroPriority result }
{
    Hello {
        holdtime: holdtime_of(m, p.holdtime),
        has_priority: p.priority.is_some(),
        priority: priority_of(m, p.priority),
        packing: p.packing.is_some(),
    }
}

// A Hello's options, from octet 4 on.
fn hello_options(m: &[u8]) -> Result<Hello, Refusal>
    ensures says { told result ≡ hello_options m.now }
    ensures zero { Unannounced result }
{
    let places = options(m, 4)?;
    Ok(hello_of(m, places))
}

// The same for a caller that has read the header and does not ask what they say.
pub fn check_options(m: &[u8]) -> Result<(), Refusal>
    ensures { checked result ≡ options_fine m.now }
{
    options(m, 4)?;
    Ok(())
}

// A Hello: the checks of every message, 4 for another kind, then its options.
pub fn read_hello(family: AddressFamily, path: Path, m: &[u8]) -> Result<Hello, Refusal>
    ensures says { told result ≡ read_hello (family_named family) path m.now }
    ensures zero { Unannounced result }
{
    match headers::header(is_ipv6(family), path, m)? {
        Kind::Hello => hello_options(m),
        _ => Err(Reason::BadKind.at(0)),
    }
}
