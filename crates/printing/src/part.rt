// The front of a slice, what two slices have in common, and an address or an entry put into one.
ghost use Rattle.std.specs.Prelude.{◌≡◌, ℕ, ◌+◌, ◌≤◌, ◌<◌, length, take, get_or};

use format::{Address, AssertFields};

// The first n octets of a slice, or all of it.
pub fn front(e: &[u8], n: usize) -> &[u8]
    ensures { result.now ≡ take n e.now }
{
    if e.len() < n {
        return e;
    }
    &e[..n]
}

// How many octets from the start on are the same in both slices.
pub fn in_common(e: &[u8], f: &[u8]) -> usize
    ensures same { (result ≤ length e.now) × (result ≤ length f.now) × ((k : ℕ) → k < result → get_or e.now k 0 ≡ get_or f.now k 0) }
    ensures most { result < length e.now → result < length f.now → get_or e.now result 0 ≡ get_or f.now result 0 → ⊥ }
{
    e.iter()
        .zip(f)
        .position(|(x, y)| x != y)
        .unwrap_or(e.len().min(f.len()))
}

// The octets of an IPv6 address, where they fit.
fn put_sixteen(e: &mut [u8], at: usize, a: Address) {
    if e.len() < 16 {
        return;
    }
    if e.len() - 16 < at {
        return;
    }
    octets::write::<u32>(e, at, (a.high / 0x1_0000_0000) as u32);
    octets::write::<u32>(e, at + 4, (a.high % 0x1_0000_0000) as u32);
    octets::write::<u32>(e, at + 8, (a.low / 0x1_0000_0000) as u32);
    octets::write::<u32>(e, at + 12, (a.low % 0x1_0000_0000) as u32);
}

// The octets of an address of a family, where they fit.
pub fn put_address(ipv6: bool, e: &mut [u8], at: usize, a: Address) {
    if ipv6 {
        put_sixteen(e, at, a);
        return;
    }
    octets::write::<u32>(e, at, (a.low % 0x1_0000_0000) as u32);
}

// The entry of an assert, where it fits: 20 octets in IPv4, 44 in IPv6.
pub fn put_assert(ipv6: bool, e: &mut [u8], at: usize, x: AssertFields) {
    let w = addresses::width(ipv6);
    if e.len() < at {
        return;
    }
    if e.len() - at < 2 * w + 12 {
        return;
    }
    octets::write::<u32>(e, at, 0x1_000000 * addresses::family_number(ipv6) as u32);
    put_address(ipv6, e, at + 4, x.group);
    put_address(ipv6, e, at + 4 + w, x.source);
    octets::write::<u32>(e, at + 4 + 2 * w, x.r_preference);
    octets::write::<u32>(e, at + 8 + 2 * w, x.metric);
}
