// Hellos of IPv6: with and without each option, and what is refused of them. An address list (RFC 7761, 4.9.2) is skipped.
use crate::shown::show_ipv6;

fn said(out: &impl Print, err: &impl Print) {
    show_ipv6(
        out,
        err,
        b"\
IPv6, Hello: no option
20007c7c
IPv6, Hello: holdtime
20007c5500010002001e
IPv6, Hello: priority
20007c580013000400000005
IPv6, Hello: packing
20007c5000280000
IPv6, Hello: packing, priority, holdtime, octet 1 set
20ff7b0600280000001300040000000500010002001e
IPv6, Hello: priority 0, holdtime 65535
20007c54001300040000000000010002ffff
IPv6, Hello: an address list, an unknown option twice, and one of no octets
200004b200180012020020010db8000700000000000000000001001400043ff7e3a200010002001e001400043ff7e3a2002a0000
",
    );
}

// 13: a known option of another length, or given twice, also where its value is cut.
fn refused(out: &impl Print, err: &impl Print) {
    show_ipv6(
        out,
        err,
        b"\
IPv6, Hello: holdtime of 4 octets
20007c51000100040000001e
IPv6, Hello: priority of 2 octets, after holdtime
20007c3500010002001e001300020005
IPv6, Hello: packing with a value
20007c4e0028000100
IPv6, Hello: holdtime twice
20007c2e00010002001e00010002001e
IPv6, Hello: priority twice
20007c0d001300040000000500010002001e0013000400000005
IPv6, Hello: packing twice
20007c240028000000280000
IPv6, Hello: a second holdtime, cut in its value
20007c4d00010002001e0001000200
",
    );
}

// 6: cut in an option.
fn cut(out: &impl Print, err: &impl Print) {
    show_ipv6(
        out,
        err,
        b"\
IPv6, Hello: cut in a type
20007c5400010002001e00
IPv6, Hello: cut in a length
20007c78000100
IPv6, Hello: cut in the holdtime
20007c740001000200
IPv6, Hello: an address list cut, after all three
20004c0600010002001e00130004000000050028000000180012020020010db80007000000000000000000
",
    );
}

pub(crate) fn run(out: &impl Print, err: &impl Print) {
    said(out, err);
    refused(out, err);
    cut(out, err);
}
