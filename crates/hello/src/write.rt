// Writing Hellos. One pass over the list of options measures, and once there is room a second one writes: the same
// function, told whether to write. The header is written last. The sum is made of the numbers: octets that were just
// stored one by one would be waited for, to be read again as words.
ghost use Rattle.std.specs.Prelude.{◌≡◌, true, cond, ◌+◌, ◌≤◌, length};
ghost use Rattle.octets.specs.Octets.{put};
ghost use Rattle.checksum.specs.Sum.{words, sum_from};
ghost use Rattle.format.specs.Family.{family_named};
ghost use Rattle.format.specs.Writing.{length_by};
ghost use Rattle.hello.specs.Options.{length_of, given, option_octets, options_octets};
ghost use Rattle.hello.specs.Hello.{said_in, write_hello};
ghost use Rattle.hello.specs.Answers.{said_by, hello_by};

use crate::Hello;
use crate::table::{CAPABILITY, HOLDTIME, Heard, Known, PRIORITY, was_given};
use checksum::{add, sum_after};
use format::{AddressFamily, Kind, Path, Reason, Refusal, is_ipv6};
use octets::{copy, write};

// How far a message goes, and the sum of its words but for the checksum.
#[derive(Clone, Copy)]
struct Extent {
    end: usize,
    sum: u16,
}

// What a Hello has to say: its holdtime always.
fn to_say(said: Hello) -> Heard
    ensures { said_by result ≡ said_in (hello_by said) }
{
    Heard {
        holdtime: Some(said.holdtime),
        priority: said.has_priority.then_some(said.priority),
        packing: said.packing,
    }
}

// The octets of an option: type, length and value.
fn option_size(k: Known) -> usize
    ensures { result ≡ 4 + length_of k 0 }
{
    match k {
        Known::Holdtime => 6,
        Known::Priority => 8,
        Known::Packing => 4,
        Known::Other => 4,
    }
}

// The words of an option that is given, summed onto an earlier sum.
fn sum_given(h: Heard, k: Known, start: u16) -> u16
    requires { given (said_by h) k ≡ true }
    ensures { result ≡ sum_from start (words (option_octets (said_by h) k)) }
{
    match k {
        Known::Holdtime => add(sum_after(start, &HOLDTIME), h.holdtime.unwrap()),
        Known::Priority => {
            let priority = h.priority.unwrap();
            let high = add(sum_after(start, &PRIORITY), (priority / 65536) as u16);
            add(high, (priority % 65536) as u16)
        }
        Known::Packing => sum_after(start, &CAPABILITY),
        Known::Other => start,
    }
}

// An option that is given, at a place: its type and length are one string.
fn put_given(h: Heard, k: Known, d: &mut [u8], at: usize)
    requires { (given (said_by h) k ≡ true) × (at + (4 + length_of k 0) ≤ length d.old) }
    ensures { d.new ≡ put d.old at (option_octets (said_by h) k) }
{
    match k {
        Known::Holdtime => {
            copy::<4>(&HOLDTIME, &mut d[at..at + 4]);
            write::<u16>(d, at + 4, h.holdtime.unwrap());
        }
        Known::Priority => {
            copy::<4>(&PRIORITY, &mut d[at..at + 4]);
            write::<u32>(d, at + 4, h.priority.unwrap());
        }
        Known::Packing => copy::<4>(&CAPABILITY, &mut d[at..at + 4]),
        Known::Other => {}
    }
}

// The same, if octets are to be written.
fn put_if(write: bool, h: Heard, k: Known, d: &mut [u8], at: usize)
    requires { (given (said_by h) k ≡ true) × (write ≡ true → at + (4 + length_of k 0) ≤ length d.old) }
    ensures { d.new ≡ cond write (put d.old at (option_octets (said_by h) k)) d.old }
{
    if write {
        put_given(h, k, d, at);
    }
}

// An option where it is given, written or only measured: the extent past it.
fn pass_option(h: Heard, k: Known, write: bool, d: &mut [u8], x: Extent) -> Extent
    requires { (x.end ≤ 22) × (write ≡ true → x.end + length (option_octets (said_by h) k) ≤ length d.old) }
    ensures extent { (result.end ≡ x.end + length (option_octets (said_by h) k)) × (result.sum ≡ sum_from x.sum (words (option_octets (said_by h) k))) }
    ensures buffer { d.new ≡ cond write (put d.old x.end (option_octets (said_by h) k)) d.old }
{
    if was_given(h, k) {
        put_if(write, h, k, d, x.end);
        return Extent {
            end: x.end + option_size(k),
            sum: sum_given(h, k, x.sum),
        };
    }
    x
}

// The list of options, from octet 4 on, summed onto an earlier sum: the extent of the message that says all of them.
fn pass(h: Heard, write: bool, start: u16, d: &mut [u8]) -> Extent
    requires { write ≡ true → 4 + length (options_octets (said_by h)) ≤ length d.old }
    ensures extent { (result.end ≡ 4 + length (options_octets (said_by h))) × (result.sum ≡ sum_from start (words (options_octets (said_by h)))) }
    ensures buffer { d.new ≡ cond write (put d.old 4 (options_octets (said_by h))) d.old }
{
    let header = Extent { end: 4, sum: start };
    let holdtime = pass_option(h, Known::Holdtime, write, d, header);
    let priority = pass_option(h, Known::Priority, write, d, holdtime);
    pass_option(h, Known::Packing, write, d, priority)
}

// Writes the one Hello that says this. A priority that it has not is not looked at.
pub fn write_hello(
    family: AddressFamily,
    path: Path,
    said: Hello,
    d: &mut [u8],
) -> Result<usize, Refusal>
    ensures answer { length_by result ≡ (write_hello (family_named family) path (hello_by said) d.old).answer }
    ensures buffer { d.new ≡ (write_hello (family_named family) path (hello_by said) d.old).buffer }
{
    let h = to_say(said);
    let measured = pass(h, false, 0, d);
    let n = measured.end;
    if d.len() < n {
        return Err(Reason::NoRoom.at(0));
    }
    let start = headers::start_sum(is_ipv6(family), path, Kind::Hello, n);
    let x = pass(h, true, start, d);
    headers::put_header(Kind::Hello, x.sum, d);
    Ok(n)
}
