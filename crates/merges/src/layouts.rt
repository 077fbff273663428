// The layouts of RFC 6807, section 3.2, with 01's lengths, and damaged attributes.
use crate::output::read;
use printing::{each_case, text};

fn case(out: &impl Print, name: &[u8], o: &[u8]) {
    text(out, name);
    text(out, b": ");
    read(out, o, 0);
}

fn cases(out: &impl Print, table: &[u8]) {
    each_case(table, &mut [0; 64], |name, o| case(out, name, o));
}

// A minimum-size attribute, one with all options, one with stub and node.
fn layouts(out: &impl Print) {
    cases(
        out,
        b"\
no option
030605dc00110000
all options
431605dc001fff00000001020000030401f4186405060708
stub and node
030b05dc000144000000002a09
",
    );
}

fn lengths(out: &impl Print) {
    cases(
        out,
        b"\
length 5
030505dc000100
length 7, no option
030705dc0001000000
stub and node, length 10
030a05dc000144000000002a09
an unallocated option bit, two octets ignored
030805dc00010001aabbcc
the same, cut in the ignored octets
030805dc00010001aa
an unallocated option bit, too short for the known ones
030805dc00018001aabb
",
    );
}

fn heads(out: &impl Print) {
    cases(
        out,
        b"\
F
830605dc00110000
type 4
040605dc00110000
nothing

cut before the length
03
cut in the options
030605dc001100
cut in a value
030b05dc00014400000000
",
    );
}

pub(crate) fn run(out: &impl Print) {
    layouts(out);
    lengths(out);
    heads(out);
}
