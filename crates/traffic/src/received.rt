// Messages of crates/cases/specs/Messages.antt, one of each kind, with their octets as there, 01's example 1 and a Hello; then damaged
// ones, of Faults.antt.
use crate::receive::receive;
use counters::Counters;
use printing::each_case;

// Every message of a table.
fn receive_all(out: &impl Print, err: &impl Print, start: Counters, table: &[u8]) -> Counters {
    let mut c = start;
    each_case(table, &mut [0; 1480], |name, m| {
        c = receive(out, err, c, name, m);
    });
    c
}

fn valid(out: &impl Print, err: &impl Print, start: Counters) -> Counters {
    receive_all(
        out,
        err,
        start,
        b"\
example 1
2501e5580000000001000020e801010101000a0000010000006e00000014
simple
2501d9f10000000001000020e401020301000a0405060708090a0b0c0d0e01000020e51112130100000000009718191a1b1c1d1e
assert
2500555101000020e3a1a2a301000ab1b2b38c1d2e3fc1c2c3c4
aggregated
25033166000000000a0b0c0d1112131401000a1516170002000001000020e831323301000020ef414243
null-register
2d003e6101000020e621222301000a24252601000020e731323301000a343536
register-stop
2d1016fb01000020e941424301000a44454601000020ea515253010000000000
hello
2000dfde00010002001e
",
    )
}

// Each is refused, so none is counted: 01's example 2 by its header, two by their second record, and one that has no record.
fn damaged(out: &impl Print, err: &impl Print, start: Counters) -> Counters {
    receive_all(
        out,
        err,
        start,
        b"\
example 2
2501e5580000000001000020e801010101000a0000010000006e00000015
simple, source 0
2501f9b20000000001000020e801010101000a0000010000006e0000001401000020e80101020100000000000000006e00000014
null-register, cut
2d00f3b701000020e801010101000a00000101000020e8010102
null-register, no record
2d00d2ff
",
    )
}

pub(crate) fn run(out: &impl Print, err: &impl Print, start: Counters) -> Counters {
    let c = valid(out, err, start);
    damaged(out, err, c)
}
