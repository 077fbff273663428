// Messages of a table listed, those of IPv6 all sent on one path; and the octets of a message that was written.
use format::{Address, AddressFamily, Path, nowhere};
use printing::text;

// fe80::a1b2:c3d4 to ff02::d, all PIM routers (RFC 7761, 4.9).
pub(crate) fn path() -> Path {
    Path {
        source: Address {
            high: 0xfe80_0000_0000_0000,
            low: 0xa1b2_c3d4,
        },
        destination: Address {
            high: 0xff02_0000_0000_0000,
            low: 0xd,
        },
    }
}

pub(crate) fn show_ipv4(out: &impl Print, err: &impl Print, table: &[u8]) {
    listing::show_all(out, err, AddressFamily::Ipv4, nowhere(), table);
}

pub(crate) fn show_ipv6(out: &impl Print, err: &impl Print, table: &[u8]) {
    listing::show_all(out, err, AddressFamily::Ipv6, path(), table);
}

fn octet(out: &impl Print, x: u8) -> bool {
    print!(out; "{x:02x}").is_ok()
}

fn octets(out: &impl Print, m: &[u8]) {
    for x in m {
        octet(out, *x);
    }
}

// A message of IPv6 in hexadecimal, then its listing.
pub(crate) fn written(out: &impl Print, err: &impl Print, m: &[u8]) {
    octets(out, m);
    text(out, b"\n");
    listing::list_of(out, err, AddressFamily::Ipv6, path(), m);
}
