// Entries of IPv6 packed: what the call answers, the octets it wrote, then the listing of the message. The entries are those of the
// messages of kinds6.rt, so the octets are the same.
use crate::shown::{path, written};
use format::{AddressFamily, Kind, Refusal};
use packing::Packing;
use printing::{each_case, front, packed, title};

// Packs entries into a message of a kind. A Hello has none.
fn pack(kind: Kind, limit: usize, e: &[u8], d: &mut [u8]) -> Result<Packing, Refusal> {
    let six = AddressFamily::Ipv6;
    match kind {
        Kind::Hello => Ok(Packing {
            length: 0,
            taken: 0,
        }),
        Kind::Assert => packing::pack_assert(six, path(), e, 0, limit, d),
        Kind::Simple => packing::pack_simple(six, path(), e, 0, limit, d),
        Kind::Aggregated => packing::pack_aggregated(six, path(), e, 0, limit, d),
        Kind::NullRegister => packing::pack_null_register(six, path(), e, 0, limit, d),
        Kind::RegisterStop => packing::pack_register_stop(six, path(), e, 0, limit, d),
    }
}

// The message stands at the front of what was lent.
fn show(out: &impl Print, err: &impl Print, kind: Kind, limit: usize, name: &[u8], e: &[u8]) {
    let mut d = [0; 1480];
    title(out, name);
    match pack(kind, limit, e, &mut d) {
        Ok(p) => {
            packed(out, p.length, p.taken);
            if 0 < p.length {
                written(out, err, front(&d, p.length));
            }
        }
        Err(r) => listing::refused(out, err, r),
    }
}

// Every list of a table: its name and its entries.
fn show_all(out: &impl Print, err: &impl Print, kind: Kind, limit: usize, table: &[u8]) {
    each_case(table, &mut [0; 256], |name, e| {
        show(out, err, kind, limit, name, e);
    });
}

// Two or three of one group without a source are as many group records with p=0; four are joined, and so is a source with none.
fn aggregated(out: &impl Print, err: &impl Print) {
    show_all(
        out,
        err,
        Kind::Aggregated,
        0,
        b"\
packed in IPv6: two groups of one source
02000000ff3e2122232425262728292a2b2c2d2e20010db81112131415161718191a1b1c010203040506070802000000ff0e3132333435363738393a3b3c3d3e20010db81112131415161718191a1b1c0102030405060708
packed in IPv6: two of one group without a source
02000000ff3e2122232425262728292a2b2c2d2e00000000000000000000000000000000810203040506070802000000ff3e2122232425262728292a2b2c2d2e000000000000000000000000000000008102030405060708
packed in IPv6: three of one group without a source
02000000ff3e2122232425262728292a2b2c2d2e00000000000000000000000000000000810203040506070802000000ff3e2122232425262728292a2b2c2d2e00000000000000000000000000000000810203040506070802000000ff3e2122232425262728292a2b2c2d2e000000000000000000000000000000008102030405060708
packed in IPv6: four of one group without a source, joined
02000000ff3e2122232425262728292a2b2c2d2e00000000000000000000000000000000810203040506070802000000ff3e2122232425262728292a2b2c2d2e00000000000000000000000000000000810203040506070802000000ff3e2122232425262728292a2b2c2d2e00000000000000000000000000000000810203040506070802000000ff3e2122232425262728292a2b2c2d2e000000000000000000000000000000008102030405060708
packed in IPv6: two of one group, one without a source
02000000ff354142434445464748494a4b4c4d4e20010db85152535455565758595a5b5cc10203040506070802000000ff354142434445464748494a4b4c4d4e00000000000000000000000000000000c102030405060708
packed in IPv6: five, in two records
02000000ff3e2122232425262728292a2b2c2d2e20010db81112131415161718191a1b1c010203040506070802000000ff0e3132333435363738393a3b3c3d3e20010db81112131415161718191a1b1c010203040506070802000000ff354142434445464748494a4b4c4d4e20010db85152535455565758595a5b5cc10203040506070802000000ff354142434445464748494a4b4c4d4e00000000000000000000000000000000c10203040506070802000000ff3e2122232425262728292a2b2c2d2e00000000000000000000000000000000c102030405060708
packed in IPv6: no entry

",
    );
    show_all(
        out,
        err,
        Kind::Aggregated,
        67,
        b"\
packed in IPv6: two of one group without a source, limit 67
02000000ff3e2122232425262728292a2b2c2d2e00000000000000000000000000000000810203040506070802000000ff3e2122232425262728292a2b2c2d2e000000000000000000000000000000008102030405060708
",
    );
}

// A record has 46 octets: 100 for two.
fn asserts(out: &impl Print, err: &impl Print) {
    show_all(
        out,
        err,
        Kind::Simple,
        0,
        b"\
packed in IPv6: two asserts
02000000ff3e2122232425262728292a2b2c2d2e20010db81112131415161718191a1b1c010203040506070802000000ff0e3132333435363738393a3b3c3d3e00000000000000000000000000000000890123456789abcd
",
    );
    show_all(
        out,
        err,
        Kind::Simple,
        99,
        b"\
packed in IPv6: two asserts, limit 99
02000000ff3e2122232425262728292a2b2c2d2e20010db81112131415161718191a1b1c010203040506070802000000ff0e3132333435363738393a3b3c3d3e00000000000000000000000000000000890123456789abcd
",
    );
    show_all(
        out,
        err,
        Kind::Assert,
        62,
        b"\
packed in IPv6: a plain assert, limit 62
02000000ff3e2122232425262728292a2b2c2d2e20010db81112131415161718191a1b1c0102030405060708
",
    );
}

// Source 0 is for a Register-Stop alone.
fn pairs(out: &impl Print, err: &impl Print) {
    show_all(
        out,
        err,
        Kind::NullRegister,
        0,
        b"\
packed in IPv6: two Null-Registers
02000000ff3e2122232425262728292a2b2c2d2e20010db81112131415161718191a1b1c02000000ff0e3132333435363738393a3b3c3d3efe805152535455565758595a5b5c5d5e
packed in IPv6: two Null-Registers, the second with source 0
02000000ff3e2122232425262728292a2b2c2d2e20010db81112131415161718191a1b1c02000000ff0e3132333435363738393a3b3c3d3e00000000000000000000000000000000
packed in IPv6: three pairs of IPv4, as long as one
01000000e80101010a00000101000000e80101010a00000101000000e80101010a000001
",
    );
    show_all(
        out,
        err,
        Kind::RegisterStop,
        0,
        b"\
packed in IPv6: two Register-Stops
02000000ff3e2122232425262728292a2b2c2d2e20010db81112131415161718191a1b1c02000000ff0e3132333435363738393a3b3c3d3e00000000000000000000000000000000
packed in IPv6: two Register-Stops, the second from ff02::2
02000000ff3e2122232425262728292a2b2c2d2e20010db81112131415161718191a1b1c02000000ff0e3132333435363738393a3b3c3d3eff020000000000000000000000000002
",
    );
}

// 9, 8, 10, and 7 for the family or the zero octets of an entry and for its addresses.
fn refused(out: &impl Print, err: &impl Print) {
    show_all(
        out,
        err,
        Kind::Assert,
        61,
        b"\
packed in IPv6: a plain assert, limit 61
02000000ff3e2122232425262728292a2b2c2d2e20010db81112131415161718191a1b1c0102030405060708
",
    );
    show_all(
        out,
        err,
        Kind::Assert,
        1481,
        b"\
packed in IPv6: a limit past the buffer
02000000ff3e2122232425262728292a2b2c2d2e20010db81112131415161718191a1b1c0102030405060708
",
    );
    show_all(
        out,
        err,
        Kind::Simple,
        0,
        b"\
packed in IPv6: an entry cut by an octet
02000000ff3e2122232425262728292a2b2c2d2e20010db81112131415161718191a1b1c01020304050607
packed in IPv6: the second entry of family 1
02000000ff3e2122232425262728292a2b2c2d2e20010db81112131415161718191a1b1c010203040506070801000000ff0e3132333435363738393a3b3c3d3e20010db81112131415161718191a1b1c0102030405060708
packed in IPv6: the last of the zero octets set
02000001ff3e2122232425262728292a2b2c2d2e20010db81112131415161718191a1b1c0102030405060708
packed in IPv6: group fe80::1
02000000fe80000000000000000000000000000120010db81112131415161718191a1b1c0102030405060708
packed in IPv6: R=0 with source 0, after one with R=1
02000000ff3e2122232425262728292a2b2c2d2e00000000000000000000000000000000810203040506070802000000ff3e2122232425262728292a2b2c2d2e000000000000000000000000000000000102030405060708
packed in IPv6: R=1 with source ff02::d
02000000ff3e2122232425262728292a2b2c2d2eff02000000000000000000000000000d8102030405060708
",
    );
}

pub(crate) fn run(out: &impl Print, err: &impl Print) {
    aggregated(out, err);
    asserts(out, err);
    pairs(out, err);
    refused(out, err);
}
