// Plain Asserts that PIM daemons sent on test LANs, FRR pimd 8.4.4 (Debian 8.4.4-1.1~deb12u2) and pimd 2.3.2 (Debian
// 2.3.2-3+b2), and packed Null-Register and Register-Stop messages made by hand and read by tshark 4.4.18.
use crate::show_ipv4;

// Captures ff-lan.pcap, ff2-lan.pcap (an AssertCancel) and tt-lan.pcap. A name has the values that were read.
fn asserts(out: &impl Print, err: &impl Print) {
    show_ipv4(
        out,
        err,
        b"\
vector assert 1, FRR pimd 8.4.4 at 10.7.0.12
2500e4e301000020e801010101000a0900640000006e0000001e
vector assert 2, FRR pimd 8.4.4 at 10.7.0.11
2500e4ec01000020e801010201000a0900640000006e00000014
vector assert 3, FRR pimd 8.4.4 at 10.7.0.12
2500e4e401000020e8ffffff01000a0900660000006e0000001e
vector assert 4, FRR pimd 8.4.4 at 10.7.0.11
2500e56f01000020e801010101000a090064ffffffffffffffff
vector assert 5, pimd 2.3.2 at 10.7.0.12
2500df0201000020ef00000101000a0900650000006600000007
vector assert 6, pimd 2.3.2 at 10.7.0.12
2500dbfe01000020ef03030301000a0900640000006600000007
",
    );
}

// What tshark reads no pair of, 01 refuses: subtype 2, the Count word of draft 11, and a cut source. The last one has a pair from
// 255.255.255.255, which tshark reads and E5 refuses.
fn registers(out: &impl Print, err: &impl Print) {
    show_ipv4(
        out,
        err,
        b"\
vector register 1, nr 2 pairs
2d00dab501000020ef01010101000a00000101000020ef01010201000a000002
vector register 2, nr 1 pair
2d00d6db01000020ef01010101000a000001
vector register 3, nr low half of octet 1 set (0x0f)
2d0fd6cc01000020ef01010101000a000001
vector register 4, subtype 2
2d20d6bb01000020ef01010101000a000001
vector register 5, nr draft-11 form with Count word 00000001
2d00d6da0000000101000020ef01010101000a000001
vector register 6, nr cut inside source
2d00d6dc01000020ef01010101000a0000
vector register 7, rs 3 pairs, source 0 in the middle
2d10028701000020ef01010101000a00000101000020ef01010201000000000001000020e00000000100ffffffff
",
    );
}

pub(crate) fn run(out: &impl Print, err: &impl Print) {
    asserts(out, err);
    registers(out, err);
}
