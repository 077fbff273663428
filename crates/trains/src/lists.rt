// The short lists of the examples and of the choice, in both families. Groups are 232.1.1.1 and on, or ff3e::e801:101 and
// on; the source is 10.0.0.1, or 2001:db8::1; preference 110 and metric 20.
use format::AddressFamily;
use printing::hexadecimal;

// Room for four entries of IPv6.
pub(crate) const ROOM: usize = 176;

// Three with R=0 and one source.
pub(crate) fn three(family: AddressFamily) -> [u8; ROOM] {
    let mut e = [0; ROOM];
    match family {
        AddressFamily::Ipv4 => {
            hexadecimal(
                b"\
01000000 e8010101 0a000001 0000006e 00000014 01000000 e8010102 0a000001 0000006e 00000014 01000000 e8010103 0a000001 0000006e 00000014",
                &mut e,
            );
        }
        AddressFamily::Ipv6 => {
            hexadecimal(
                b"\
02000000 ff3e00000000000000000000e8010101 20010db8000000000000000000000001 0000006e 00000014 \
02000000 ff3e00000000000000000000e8010102 20010db8000000000000000000000001 0000006e 00000014 \
02000000 ff3e00000000000000000000e8010103 20010db8000000000000000000000001 0000006e 00000014",
                &mut e,
            );
        }
    }
    e
}

// One with R=1 and a source.
pub(crate) fn one(family: AddressFamily) -> [u8; ROOM] {
    let mut e = [0; ROOM];
    match family {
        AddressFamily::Ipv4 => {
            hexadecimal(b"01000000 e8010101 0a000001 8000006e 00000014", &mut e);
        }
        AddressFamily::Ipv6 => {
            hexadecimal(
                b"02000000 ff3e00000000000000000000e8010101 20010db8000000000000000000000001 8000006e 00000014",
                &mut e,
            );
        }
    }
    e
}

// With R=1, one group and source 0: two in IPv4, and four in IPv6.
pub(crate) fn zeros(family: AddressFamily) -> [u8; ROOM] {
    let mut e = [0; ROOM];
    match family {
        AddressFamily::Ipv4 => {
            hexadecimal(
                b"01000000 e8010101 00000000 8000006e 00000014 01000000 e8010101 00000000 8000006e 00000014",
                &mut e,
            );
        }
        AddressFamily::Ipv6 => {
            hexadecimal(
                b"\
02000000 ff3e00000000000000000000e8010101 00000000000000000000000000000000 8000006e 00000014 \
02000000 ff3e00000000000000000000e8010101 00000000000000000000000000000000 8000006e 00000014 \
02000000 ff3e00000000000000000000e8010101 00000000000000000000000000000000 8000006e 00000014 \
02000000 ff3e00000000000000000000e8010101 00000000000000000000000000000000 8000006e 00000014",
                &mut e,
            );
        }
    }
    e
}
