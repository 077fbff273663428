// The sum of RFC 8200's pseudo-header, 8.1, which an IPv6 message is summed after; an IPv4 message is summed by itself.
ghost use Rattle.std.specs.Prelude.{◌≡◌};
ghost use Rattle.checksum.specs.Sum.{sum};
ghost use Rattle.format.specs.Family.{family_of};
ghost use Rattle.format.specs.Path.{pseudo_header};
ghost use Rattle.format.specs.Header.{before};

use checksum::sum_number64;
use format::Path;

// The length of the message and the next header, 103, are the last eight octets.
fn pseudo_sum(path: Path, n: u32) -> u16
    ensures { result ≡ sum (pseudo_header path n) }
{
    let a = sum_number64(0, path.source.high);
    let b = sum_number64(a, path.source.low);
    let c = sum_number64(b, path.destination.high);
    let d = sum_number64(c, path.destination.low);
    sum_number64(d, (n as u64) * 4294967296 + 103)
}

// What is summed before a message of n octets. The length has four octets there.
pub fn sum_before(ipv6: bool, path: Path, n: usize) -> u16
    ensures { result ≡ before (family_of ipv6) path n }
{
    if ipv6 {
        return pseudo_sum(path, (n % 4294967296) as u32);
    }
    0
}
