// Hellos that FRR pim6d 10.3 (Debian 13 10.3-3+deb13u1) sent in IPv6 on a test LAN, to ff02::d. A name has the sender's address, the source
// of the pseudo-header, and the values that were read; the functions go by sender.
use format::{Address, AddressFamily, Path};

// The Hellos of a table, sent by fe80:: with a last number.
fn show_from(out: &impl Print, err: &impl Print, last: u64, table: &[u8]) {
    let path = Path {
        source: Address {
            high: 0xfe80_0000_0000_0000,
            low: last,
        },
        destination: Address {
            high: 0xff02_0000_0000_0000,
            low: 0xd,
        },
    };
    listing::show_all(out, err, AddressFamily::Ipv6, path, table);
}

fn router_1(out: &impl Print, err: &impl Print) {
    show_from(
        out,
        err,
        1,
        b"\
vector hello6 1, FRR pim6d 10.3 at fe80::1: holdtime=18 priority=1
2000efc40001000200120002000401f409c40013000400000001001400043ea5777600180012020020010db8000700000000000000000001
vector hello6 3, FRR pim6d 10.3 at fe80::1: holdtime=18 priority=9
2000efbc0001000200120002000401f409c40013000400000009001400043ea5777600180012020020010db8000700000000000000000001
vector hello6 4, FRR pim6d 10.3 at fe80::1: holdtime=18 priority=2147483647
20006fc60001000200120002000401f409c4001300047fffffff001400043ea5777600180012020020010db8000700000000000000000001
vector hello6 7, FRR pim6d 10.3 at fe80::1: holdtime=0 priority=1
2000efd60001000200000002000401f409c40013000400000001001400043ea5777600180012020020010db8000700000000000000000001
",
    );
}

fn router_2(out: &impl Print, err: &impl Print) {
    show_from(
        out,
        err,
        2,
        b"\
vector hello6 6, FRR pim6d 10.3 at fe80::2: holdtime=65535 priority=1
20002dd000010002ffff0002000401f409c400130004000000010014000448c62f5a00180012020020010db8000700000000000000000002
",
    );
}

fn router_3(out: &impl Print, err: &impl Print) {
    show_from(
        out,
        err,
        3,
        b"\
vector hello6 2, FRR pim6d 10.3 at fe80::3: holdtime=18 priority=1
2000e60a0001000200120002000401f409c4001300040000000100140004248e9b4300180012020020010db8000700000000000000000003
vector hello6 5, FRR pim6d 10.3 at fe80::3: holdtime=18 priority=4294967295
2000e60b0001000200120002000401f409c400130004ffffffff00140004248e9b4300180012020020010db8000700000000000000000003
",
    );
}

// 3: the pseudo-header of another router.
fn another(out: &impl Print, err: &impl Print) {
    show_from(
        out,
        err,
        2,
        b"\
vector hello6 1, read as from fe80::2
2000efc40001000200120002000401f409c40013000400000001001400043ea5777600180012020020010db8000700000000000000000001
",
    );
}

pub(crate) fn run(out: &impl Print, err: &impl Print) {
    router_1(out, err);
    router_2(out, err);
    router_3(out, err);
    another(out, err);
}
