// The aggregated packing call, in the one place that names it, and the path of every message. Nothing is promised of the
// call here: what it answers is what the program puts to the test.
use format::{Address, AddressFamily, Path, Refusal};
use packing::Packing;

// From fe80::1 to ff02::d, all PIM routers. In IPv4 it is ignored.
pub(crate) fn path() -> Path {
    Path {
        source: Address {
            high: 0xfe80_0000_0000_0000,
            low: 1,
        },
        destination: Address {
            high: 0xff02_0000_0000_0000,
            low: 13,
        },
    }
}

pub(crate) fn pack(
    family: AddressFamily,
    e: &[u8],
    start: usize,
    limit: usize,
    d: &mut [u8],
) -> Result<Packing, Refusal> {
    packing::pack_aggregated(family, path(), e, start, limit, d)
}
