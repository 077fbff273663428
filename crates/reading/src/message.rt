// The header of a message and the body past it, for the family that a caller names.
ghost use Rattle.std.specs.Prelude.{◌≡◌};
ghost use Rattle.format.specs.Family.{family_named};
ghost use Rattle.format.specs.Header.{header as header_of, body as body_of};
ghost use Rattle.headers.specs.Answers.{headed};

use format::{AddressFamily, Kind, Path, Refusal, is_ipv6};

// The kind of a message, or the first of 1, 2, 3 and 4 that applies.
pub fn header(family: AddressFamily, path: Path, m: &[u8]) -> Result<Kind, Refusal>
    ensures { headed result ≡ header_of (family_named family) path m.now }
{
    headers::header(is_ipv6(family), path, m)
}

// The message from octet 4 on, or an empty part where `header` refuses.
pub fn body(family: AddressFamily, path: Path, m: &[u8]) -> &[u8]
    ensures { result.now ≡ body_of (family_named family) path m.now }
{
    headers::body(is_ipv6(family), path, m)
}
