// Runs messages made by hand: first how long some are and whether their checksums hold, then each by its listing. What
// is expected of them, in the file stdout, is worked out by hand. Messages that others sent or read are run by vectors.
//
// kinds.rt         each kind of message
// refusals.rt      damaged messages
// hellos.rt        Hellos, also damaged
// written.rt       Hellos written, and listed
// packs.rt         entries packed, and the messages written
// kinds6.rt        the same in IPv6, and so refusals6.rt, hellos6.rt, written6.rt and packs6.rt
// shown.rt         the messages of a table listed; octets printed
#![tactic(auto)]

mod hellos;
mod hellos6;
mod kinds;
mod kinds6;
mod packs;
mod packs6;
mod refusals;
mod refusals6;
mod shown;
mod written;
mod written6;

use addresses::sum_before;
use format::AddressFamily;
use printing::{each_case, number, text};
use shown::path;

fn holds(ipv6: bool, m: &[u8]) -> bool {
    if ipv6 {
        return checksum::holds_after(sum_before(true, path(), m.len()), m);
    }
    checksum::holds(m)
}

fn line(out: &impl Print, ipv6: bool, name: &[u8], m: &[u8]) {
    text(out, name);
    number(out, b": ", m.len() as u64);
    if holds(ipv6, m) {
        text(out, b" octets, checksum holds\n");
    } else {
        text(out, b" octets, checksum wrong\n");
    }
}

fn lines(out: &impl Print, ipv6: bool, table: &[u8]) {
    each_case(table, &mut [0; 1480], |name, m| line(out, ipv6, name, m));
}

fn checksums(out: &impl Print) {
    lines(
        out,
        false,
        b"\
example 1, simple
2501e5580000000001000020e801010101000a0000010000006e00000014
example 2, its last octet changed
2501e5580000000001000020e801010101000a0000010000006e00000015
plain assert
2500555101000020e3a1a2a301000ab1b2b38c1d2e3fc1c2c3c4
aggregated
25033166000000000a0b0c0d1112131401000a1516170002000001000020e831323301000020ef414243
null-register
2d003e6101000020e621222301000a24252601000020e731323301000a343536
register-stop
2d1016fb01000020e941424301000a44454601000020ea515253010000000000
",
    );
}

fn checksums_ipv6(out: &impl Print) {
    lines(
        out,
        true,
        b"\
IPv6, source aggregated
25031ae5000000000102030405060708020020010db81112131415161718191a1b1c0002000002000080ff3e2122232425262728292a2b2c2d2e02000080ff0e3132333435363738393a3b3c3d3e
IPv6, plain assert
25009f1e02000080ff3e2122232425262728292a2b2c2d2e020020010db81112131415161718191a1b1c0102030405060708
IPv6, simple
250159350000000002000080ff3e2122232425262728292a2b2c2d2e020020010db81112131415161718191a1b1c010203040506070802000080ff0e3132333435363738393a3b3c3d3e020000000000000000000000000000000000890123456789abcd
IPv6, its last octet changed
250159350000000002000080ff3e2122232425262728292a2b2c2d2e020020010db81112131415161718191a1b1c010203040506070802000080ff0e3132333435363738393a3b3c3d3e020000000000000000000000000000000000890123456789abcc
IPv6, null-register
2d00bf1002000080ff3e2122232425262728292a2b2c2d2e020020010db81112131415161718191a1b1c02000080ff0e3132333435363738393a3b3c3d3e0200fe805152535455565758595a5b5c5d5e
IPv6, register-stop
2d1020ec02000080ff3e2122232425262728292a2b2c2d2e020020010db81112131415161718191a1b1c02000080ff0e3132333435363738393a3b3c3d3e020000000000000000000000000000000000
IPv6, hello
20001313000100020069001300041234567800280000
IPv6, an octet follows
25009f1e02000080ff3e2122232425262728292a2b2c2d2e020020010db81112131415161718191a1b1c010203040506070800
IPv6, summed as in IPv4
200076a8000100020069001300041234567800280000
",
    );
}

// Longer than the longest message, in either family.
fn too_long(out: &impl Print, err: &impl Print, family: AddressFamily, name: &[u8]) {
    let octets = [0; 65536];
    listing::show(out, err, family, path(), name, &octets);
}

fn ipv4(out: &impl Print, err: &impl Print) {
    checksums(out);
    kinds::run(out, err);
    refusals::run(out, err);
    too_long(out, err, AddressFamily::Ipv4, b"65,536 octets");
    hellos::run(out, err);
    written::run(out, err);
    packs::run(out, err);
}

fn ipv6(out: &impl Print, err: &impl Print) {
    checksums_ipv6(out);
    kinds6::run(out, err);
    refusals6::run(out, err);
    too_long(out, err, AddressFamily::Ipv6, b"IPv6, 65,536 octets");
    hellos6::run(out, err);
    written6::run(out, err);
    packs6::run(out, err);
}

fn main(rt: HostRuntime) {
    let out = rt.stdout();
    let err = rt.stderr();
    ipv4(&out, &err);
    ipv6(&out, &err);
}
