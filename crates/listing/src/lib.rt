// Listing a message of either family on standard output: its kind and the number of its records, then a line for each
// record; for a Hello what it says; or the refusal. No contract can say what is written, so each function
// is proved safe and ending, and what is computed for a line comes from functions with contracts.
//
// value.rt     the numbers of an entry
// line.rt      the lines
//
// Programs that name what they list, or list what no message holds, call `show`, `show_all`, `list_of`, `record` and `refused`.
#![tactic(auto)]

mod line;
mod value;

ghost use Rattle.std.specs.Prelude.{◌≡◌, length};

use format::{AddressFamily, Kind, Path, Record, Refusal, is_ipv6, nowhere};
use line::{assert_lines, heading, hello_lines, pair_lines, record_line, refused_line};
use printing::{each_case, title};

// Room for the entries of every message, in either family. None gives more than an aggregated one: a message of 65,515 octets has
// at most 10,913 of them in IPv4, of 20 octets, which are 218,260, and 3,637 in IPv6, of 44 octets, which are 160,028.
fn assert_room() -> [u8; 218260]
    ensures { 218260 ≡ length result }
{
    [0; 218260]
}

// A pair takes 14 octets of a message in IPv4 and 38 in IPv6: at most 4,679 entries of 12 octets, which are 56,148, or 1,723 of 36,
// which are 62,028.
fn pair_room() -> [u8; 62028]
    ensures { 62028 ≡ length result }
{
    [0; 62028]
}

fn list_hello(out: &impl Print, family: AddressFamily, path: Path, m: &[u8]) -> bool {
    match hello::read_hello(family, path, m) {
        Ok(says) => hello_lines(out, says),
        Err(r) => refused_line(out, r),
    }
}

// The rooms of asserts and of pairs stand in frames of their own: in the caller's, every message would take the stack of both.
#[inline(never)]
fn list_asserts(out: &impl Print, family: AddressFamily, path: Path, m: &[u8]) -> bool {
    let mut entries = assert_room();
    let ipv6 = is_ipv6(family);
    match reading::read_asserts(family, path, m, &mut entries) {
        Ok(r) => heading(out, r.kind, r.count) && assert_lines(out, ipv6, &entries, r.count),
        Err(r) => refused_line(out, r),
    }
}

#[inline(never)]
fn list_pairs(out: &impl Print, family: AddressFamily, path: Path, m: &[u8]) -> bool {
    let mut entries = pair_room();
    let ipv6 = is_ipv6(family);
    match reading::read_pairs(family, path, m, &mut entries) {
        Ok(r) => heading(out, r.kind, r.count) && pair_lines(out, ipv6, &entries, r.count),
        Err(r) => refused_line(out, r),
    }
}

// The kind says which call reads the rest. Whether all was written.
fn list_message(out: &impl Print, family: AddressFamily, path: Path, m: &[u8]) -> bool {
    match reading::header(family, path, m) {
        Ok(Kind::Hello) => list_hello(out, family, path, m),
        Ok(Kind::Assert | Kind::Simple | Kind::Aggregated) => list_asserts(out, family, path, m),
        Ok(Kind::NullRegister | Kind::RegisterStop) => list_pairs(out, family, path, m),
        Err(r) => refused_line(out, r),
    }
}

// Where standard output takes no more, standard error says so.
fn told(err: &impl Print, written: bool) {
    printing::told(err, written, b"the listing was");
}

// Lists a message of a family.
pub fn list_of(out: &impl Print, err: &impl Print, family: AddressFamily, path: Path, m: &[u8]) {
    told(err, list_message(out, family, path, m));
}

// Lists a message of IPv4.
pub fn list(out: &impl Print, err: &impl Print, m: &[u8]) {
    list_of(out, err, AddressFamily::Ipv4, nowhere(), m);
}

// A message of a family with its name.
pub fn show(
    out: &impl Print,
    err: &impl Print,
    family: AddressFamily,
    path: Path,
    name: &[u8],
    m: &[u8],
) {
    told(err, title(out, name) && list_message(out, family, path, m));
}

// Every message of a table with its name, each of at most 1,480 octets, and all of one family and one path.
pub fn show_all(
    out: &impl Print,
    err: &impl Print,
    family: AddressFamily,
    path: Path,
    table: &[u8],
) {
    each_case(table, &mut [0; 1480], |name, m| {
        show(out, err, family, path, name, m);
    });
}

// A record that was read singly, with its number.
pub fn record(out: &impl Print, err: &impl Print, family: AddressFamily, n: usize, r: Record) {
    told(err, record_line(out, is_ipv6(family), n, r));
}

// What a call refused.
pub fn refused(out: &impl Print, err: &impl Print, r: Refusal) {
    told(err, refused_line(out, r));
}
