// Damaged messages, as in crates/cases/specs/Faults.antt, Cuts.antt and Sources.antt: a refusal of each number from 1 to 7, and 6 and 7 at every
// sort of field.
use crate::shown::show_ipv4;

// 1 to 4: the header.
fn header(out: &impl Print, err: &impl Print) {
    show_ipv4(
        out,
        err,
        b"\
no octet

three octets
2501e5
version 1, and a wrong checksum
1500000001000020e801010101000a0000010000006e00000014
example 2, the last octet changed
2501e5580000000001000020e801010101000a0000010000006e00000015
type 15, and a wrong checksum
2f00000001000020e8010101
type 1, a Register
2100deff00000000
type 13, subtype 2
2d20ddbb01000020e801010101000a000001
",
    );
}

// 5: Zero not 0, or no record; 6 where the message ends before.
fn start(out: &impl Print, err: &impl Print) {
    show_ipv4(
        out,
        err,
        b"\
Zero not 0
2501e4580100000001000020e801010101000a0000010000006e00000014
Zero not 0, cut in Reserved
2501d9fe01
before Reserved
2501dafe00
cut in Reserved
2501dafe000000
a simple message with no record
2501dafe00000000
an aggregated message with no record
2503dafc00000000
a Null-Register message with no pair
2d00d2ff
a Register-Stop message with no pair
2d10d2ef
",
    );
}

// 6: a plain assert cut, or octets after it; a simple record cut.
fn cut_assert(out: &impl Print, err: &impl Print) {
    show_ipv4(
        out,
        err,
        b"\
a plain assert, before the group
2500daff
a plain assert, before the source
2500f0dc01000020e8010101
a plain assert, cut in the source
2500e5dc01000020e801010101000a0000
a plain assert, cut in the R word, the source 0
2500efdc01000020e80101010100000000000000
a plain assert, before the metric
2500e56d01000020e801010101000a0000010000006e
a plain assert, an octet follows
2500e55901000020e801010101000a0000010000006e0000001400
the second simple record, cut in its metric
2501efc50000000001000020e801010101000a0000010000006e0000001401000020e801010201000a0000010000006e000000
",
    );
}

// 6: an aggregated record cut, or a count of 0; a pair cut.
fn cut_packed(out: &impl Print, err: &impl Print) {
    show_ipv4(
        out,
        err,
        b"\
a source aggregated record, before the metric
2503da8e000000000000006e
a source aggregated record, cut in the source
2503cf7a000000000000006e0000001401000a00
a source aggregated record, cut in the number of groups
2503cf79000000000000006e0000001401000a00000100
a source aggregated record, cut in the reserved octets
2503cf78000000000000006e0000001401000a000001000100
a source aggregated record, before the second of two groups
2503e554000000000000006e0000001401000a0000010002000001000020e8010101
number of groups 0
2503e556000000000000006e0000001401000a0000010000000001000020e8010101
number of group records 0
25035a7a000000008000006e0000001400000000
an RP aggregated record, cut in the reserved octets
25035a79000000008000006e00000014000100
an RP aggregated record, cut in the group
25035979000000008000006e0000001400010000010000
an RP aggregated record, cut in the number of sources
25037056000000008000006e000000140001000001000020e801010100
an RP aggregated record, cut in the reserved octets of a group record
25037056000000008000006e000000140001000001000020e8010101000000
two group records asked for and one there
25037055000000008000006e000000140002000001000020e801010100000000
two sources asked for and one there
25036553000000008000006e000000140001000001000020e80101010002000001000a000001
the first pair, cut in the source
2d10ddcc01000020e801010101000a0000
the second pair cut
2d00f3b701000020e801010101000a00000101000020e8010102
",
    );
}

// 7: an address form or an address that is not allowed.
fn address(out: &impl Print, err: &impl Print) {
    show_ipv4(
        out,
        err,
        b"\
mask length 31
2500e55a0100001fe801010101000a0000010000006e00000014
group 223.255.255.255
2500ee5c01000020dfffffff01000a0000010000006e00000014
the source of family 2
2500e45901000020e801010102000a0000010000006e00000014
R=0 with source 0, cut in the metric
2500ef6e01000020e80101010100000000000000006e0000
the second simple record, R=0 with source 0
2501f9b20000000001000020e801010101000a0000010000006e0000001401000020e80101020100000000000000006e00000014
three groups asked for, the second bad and the third missing
2503fb30000000000000006e0000001401000a0000010003000001000020e80101010100001fe8010102
the second aggregated record, source 0
2503f9af000000000000006e0000001401000a0000010001000001000020e80101010000006e000000140100000000000001000001000020e8010101
a group record, the source with encoding type 1
25036553000000008000006e000000140001000001000020e80101010001000001010a000001
a Null-Register source 0
2d00e7dc01000020e8010101010000000000
the second pair with a unicast group
2d10cfa801000020e801010101000a000001010000200101010101000a000001
",
    );
}

// 7: a multicast source, and 255.255.255.255, in each form, whatever R says and whatever follows.
fn source(out: &impl Print, err: &impl Print) {
    show_ipv4(
        out,
        err,
        b"\
source 224.0.0.0
25000f5a01000020e80101010100e00000000000006e00000014
source 255.255.255.255
2500ef5a01000020e80101010100ffffffff0000006e00000014
R=1 with source 239.255.255.255
25007f5a01000020e80101010100efffffff8000006e00000014
source 232.1.1.1, cut in the R word
250086d901000020e80101010100e80101018000
the second simple record, R=1 with source 224.0.0.1
250199b00000000001000020e801010101000a0000010000006e0000001401000020e80101020100e00000018000006e00000014
a source aggregated record, source 239.0.0.1
25030055000000000000006e000000140100ef0000010001000001000020e8010101
a group record, the second source 255.255.255.255
25036e54000000008000006e000000140001000001000020e8010101000200000100000000000100ffffffff
a Null-Register source 224.0.0.2
2d0007da01000020e80101010100e0000002
the second Register-Stop source 255.255.255.255
2d10fca801000020e801010101000000000001000020e80101020100ffffffff
",
    );
}

pub(crate) fn run(out: &impl Print, err: &impl Print) {
    header(out, err);
    start(out, err);
    cut_assert(out, err);
    cut_packed(out, err);
    address(out, err);
    source(out, err);
}
