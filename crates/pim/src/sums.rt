// The checksum, of either family.
ghost use Rattle.std.specs.Prelude.{◌≡◌, length};
ghost use Rattle.checksum.specs.Sum.{checksum as checksum_of, holds as holds_of, checksum_from, holds_from};
ghost use Rattle.format.specs.Family.{ipv6};
ghost use Rattle.format.specs.Header.{before};

use addresses::sum_before;
use format::Path;

// What the checksum field of an IPv4 message holds.
#[unsafe(no_mangle)]
pub extern "C" fn pim_checksum(m: &[u8]) -> u16
    ensures { result ≡ checksum_of m.now }
{
    checksum::checksum(m)
}

// Whether the checksum of an IPv4 message holds.
#[unsafe(no_mangle)]
pub extern "C" fn pim_checksum_holds(m: &[u8]) -> bool
    ensures { result ≡ holds_of m.now }
{
    checksum::holds(m)
}

// The same of an IPv6 message, which is summed after its pseudo-header.
#[unsafe(no_mangle)]
pub extern "C" fn pim_checksum_ipv6(path: Path, m: &[u8]) -> u16
    ensures { result ≡ checksum_from (before ipv6 path (length m.now)) m.now }
{
    checksum::checksum_after(sum_before(true, path, m.len()), m)
}

#[unsafe(no_mangle)]
pub extern "C" fn pim_checksum_ipv6_holds(path: Path, m: &[u8]) -> bool
    ensures { result ≡ holds_from (before ipv6 path (length m.now)) m.now }
{
    checksum::holds_after(sum_before(true, path, m.len()), m)
}
