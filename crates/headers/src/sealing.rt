// The header written, once the body is known: the checksum is over both. A body is summed as it stands in the buffer
// (`seal`), or a caller who knows its numbers has the sum already (`put_header`).
ghost use Rattle.std.specs.Prelude.{◌≡◌};
ghost use Rattle.format.specs.Family.{family_of};
ghost use Rattle.headers.specs.Sealing.{first_word, start_sum, with_header, sealed};

use addresses::sum_before;
use format::{GREATEST_LIMIT, Kind, Path};
use octets::write;

// The first word of a message: version 2 and the type; then P and A of an assert, or the
// subtype of a register.
fn first_word(kind: Kind) -> u16
    ensures { result ≡ first_word kind }
{
    match kind {
        Kind::Hello => 0x2000,
        Kind::Assert => 0x2500,
        Kind::Simple => 0x2501,
        Kind::Aggregated => 0x2503,
        Kind::NullRegister => 0x2d00,
        Kind::RegisterStop => 0x2d10,
    }
}

// The sum of a message of n octets before its body: what is summed before it, and its first word.
pub fn start_sum(ipv6: bool, path: Path, kind: Kind, n: usize) -> u16
    ensures { result ≡ start_sum (family_of ipv6) path kind n }
{
    checksum::add(sum_before(ipv6, path, n), first_word(kind))
}

// The header of a message whose sum is this, with the field as 0. Nothing where it has no room.
pub fn put_header(kind: Kind, sum: u16, d: &mut [u8])
    ensures { d.new ≡ with_header kind sum d.old }
{
    if d.len() < 4 {
        return;
    }
    write::<u16>(d, 0, first_word(kind));
    write::<u16>(d, 2, 65535 - sum);
}

// The header of the message of n octets whose body stands at octet 4 of a buffer. Nothing where the buffer has fewer
// octets, or no message has so many.
pub fn seal(ipv6: bool, path: Path, kind: Kind, d: &mut [u8], n: usize)
    ensures { d.new ≡ sealed (family_of ipv6) path kind n d.old }
{
    if n < 4 {
        return;
    }
    if GREATEST_LIMIT < n {
        return;
    }
    if d.len() < n {
        return;
    }
    let sum = checksum::sum_after(start_sum(ipv6, path, kind, n), &d[4..n]);
    put_header(kind, sum, d);
}
