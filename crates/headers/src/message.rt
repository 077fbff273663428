// The checks of every message, 1 to 4 in that order, and the body past them.
ghost use Rattle.std.specs.Prelude.{◌≡◌};
ghost use Rattle.format.specs.Family.{family_of};
ghost use Rattle.format.specs.Header.{assert_kind, register_kind, kind_of, sums, header as header_of, body as body_of};
ghost use Rattle.headers.specs.Answers.{headed};

use addresses::sum_before;
use format::{GREATEST_LIMIT, Kind, Path, Reason, Refusal};

// The kind of a type 13 message: the subtype is the high half of octet 1.
fn register_kind(x: u8) -> Result<Kind, Refusal>
    ensures { headed result ≡ register_kind x }
{
    if x / 16 == 0 {
        return Ok(Kind::NullRegister);
    }
    if x / 16 == 1 {
        return Ok(Kind::RegisterStop);
    }
    Err(Reason::BadKind.at(0))
}

// The kind of a type 5 message: P is bit 0 of octet 1, A bit 1.
fn assert_kind(x: u8) -> Kind
    ensures { result ≡ assert_kind x }
{
    if x % 2 == 0 {
        return Kind::Assert;
    }
    if x / 2 % 2 == 0 {
        return Kind::Simple;
    }
    Kind::Aggregated
}

fn kind_of(t: u8, x: u8) -> Result<Kind, Refusal>
    ensures { headed result ≡ kind_of t x }
{
    if t == 0 {
        return Ok(Kind::Hello);
    }
    if t == 5 {
        return Ok(assert_kind(x));
    }
    if t == 13 {
        return register_kind(x);
    }
    Err(Reason::BadKind.at(0))
}

// Whether the checksum of a message holds: in IPv6 with what is summed before it. Each family has its own loop, so that the compiler puts that of IPv4,
// without the rest, into callers that name IPv4.
fn holds(ipv6: bool, path: Path, m: &[u8]) -> bool
    ensures { result ≡ sums (family_of ipv6) path m.now }
{
    if ipv6 {
        return checksum::holds_after(sum_before(true, path, m.len()), m);
    }
    checksum::holds(m)
}

// The kind of a message, or the first of 1, 2, 3 and 4 that applies. No message is longer than the greatest limit.
pub fn header(ipv6: bool, path: Path, m: &[u8]) -> Result<Kind, Refusal>
    ensures { headed result ≡ header_of (family_of ipv6) path m.now }
{
    if m.len() < 4 {
        return Err(Reason::BadLength.at(0));
    }
    if GREATEST_LIMIT < m.len() {
        return Err(Reason::BadLength.at(0));
    }
    if m[0] / 16 != 2 {
        return Err(Reason::BadVersion.at(0));
    }
    if !holds(ipv6, path, m) {
        return Err(Reason::BadChecksum.at(0));
    }
    kind_of(m[0] % 16, m[1])
}

// The message from octet 4 on, or an empty part where `header` refuses.
pub fn body(ipv6: bool, path: Path, m: &[u8]) -> &[u8]
    ensures { result.now ≡ body_of (family_of ipv6) path m.now }
{
    let h = header(ipv6, path, m);
    let Ok(_) = h else {
        return &m[..0];
    };
    &m[4..]
}
