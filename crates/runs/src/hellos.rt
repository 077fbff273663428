// Hellos made by hand: with and without each option, and what is refused of them.
use crate::shown::show_ipv4;

// Holdtime 30 s, priority 5, packing: none, each alone, all, and options that are skipped.
fn said(out: &impl Print, err: &impl Print) {
    show_ipv4(
        out,
        err,
        b"\
Hello: no option
2000dfff
Hello: holdtime
2000dfde00010002001e
Hello: priority
2000dfe30013000400000005
Hello: packing
2000dfd700280000
Hello: packing, priority, holdtime, octet 1 set
20ffde9b00280000001300040000000500010002001e
Hello: priority 0, holdtime 65535
2000dfe5001300040000000000010002ffff
Hello: an unknown option twice, and one of no octets
20009850001400043ff7e3a200010002001e001400043ff7e3a2002a0000
",
    );
}

// 13: a known option of another length, or given twice, also where its value is cut.
fn refused(out: &impl Print, err: &impl Print) {
    show_ipv4(
        out,
        err,
        b"\
Hello: holdtime of 4 octets
2000dfdc000100040000001e
Hello: priority of 2 octets, after holdtime
2000dfc400010002001e001300020005
Hello: packing with a value
2000dfd60028000100
Hello: holdtime twice
2000dfbd00010002001e00010002001e
Hello: priority twice
2000dfa6001300040000000500010002001e0013000400000005
Hello: packing twice
2000dfaf0028000000280000
Hello: a second holdtime, cut in its value
2000dfdb00010002001e0001000200
",
    );
}

// 6: cut in an option.
fn cut(out: &impl Print, err: &impl Print) {
    show_ipv4(
        out,
        err,
        b"\
Hello: cut in a type
2000dfde00010002001e00
Hello: cut in a length
2000dffe000100
Hello: cut in the holdtime
2000dffc0001000200
Hello: an unknown option cut, after all three
20009f8b00010002001e001300040000000500280000001400043ff7
",
    );
}

pub(crate) fn run(out: &impl Print, err: &impl Print) {
    said(out, err);
    refused(out, err);
    cut(out, err);
}
