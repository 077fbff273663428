// Hellos that PIM daemons sent on test LANs: FRR pimd 8.4.4 (Debian 8.4.4-1.1~deb12u2) and pimd 2.3.2 (Debian
// 2.3.2-3+b2). A name has the sender's address and the values that its peers read; the functions go by capture.
use crate::show_ipv4;

// FRR pimd 8.4.4, capture elections-lab.pcap.
fn frr_elections_lab_1(out: &impl Print, err: &impl Print) {
    show_ipv4(
        out,
        err,
        b"\
vector hello 1, FRR pimd 8.4.4 at 10.7.0.1: holdtime=18 priority=1
2000b0620001000200120002000401f409c40013000400000001001400043ff7e3a2
vector hello 2, FRR pimd 8.4.4 at 10.7.0.3: holdtime=18 priority=1
2000afee0001000200120002000401f409c40013000400000001001400041bea0824
vector hello 3, FRR pimd 8.4.4 at 10.7.0.2: holdtime=18 priority=9
200077b20001000200120002000401f409c40013000400000009001400042d782eca
vector hello 4, FRR pimd 8.4.4 at 10.7.0.1: holdtime=18 priority=4294967295
2000b0630001000200120002000401f409c400130004ffffffff001400043ff7e3a2
vector hello 5, FRR pimd 8.4.4 at 10.7.0.3: holdtime=18 priority=2147483647
20002ff00001000200120002000401f409c4001300047fffffff001400041bea0824
vector hello 6, FRR pimd 8.4.4 at 10.7.0.1: holdtime=18 priority=10
2000b0590001000200120002000401f409c4001300040000000a001400043ff7e3a2
vector hello 7, FRR pimd 8.4.4 at 10.7.0.1: holdtime=18 priority=2
2000b0610001000200120002000401f409c40013000400000002001400043ff7e3a2
vector hello 8, FRR pimd 8.4.4 at 10.7.0.3: holdtime=18 priority=7
2000afe80001000200120002000401f409c40013000400000007001400041bea0824
vector hello 9, FRR pimd 8.4.4 at 10.7.0.2: holdtime=18 priority=4
200077b70001000200120002000401f409c40013000400000004001400042d782eca
vector hello 10, FRR pimd 8.4.4 at 10.7.0.1: holdtime=18 priority=77367899
2000216c0001000200120002000401f409c400130004049c8a5b001400043ff7e3a2
vector hello 11, FRR pimd 8.4.4 at 10.7.0.3: holdtime=18 priority=475966879
2000e5f10001000200120002000401f409c4001300041c5ead9f001400041bea0824
vector hello 12, FRR pimd 8.4.4 at 10.7.0.3: holdtime=18 priority=3
2000afec0001000200120002000401f409c40013000400000003001400041bea0824
vector hello 13, FRR pimd 8.4.4 at 10.7.0.3: holdtime=18 priority=3457671755
2000ff8b0001000200120002000401f409c400130004ce17e24b001400041bea0824
vector hello 14, FRR pimd 8.4.4 at 10.7.0.3: holdtime=18 priority=1033376362
20005fed0001000200120002000401f409c4001300043d98126a001400041bea0824
vector hello 15, FRR pimd 8.4.4 at 10.7.0.1: holdtime=18 priority=2853300183
20001e7a0001000200120002000401f409c400130004aa11e7d7001400043ff7e3a2
vector hello 16, FRR pimd 8.4.4 at 10.7.0.3: holdtime=18 priority=3951459043
200049850001000200120002000401f409c400130004eb867ae3001400041bea0824
",
    );
}

// FRR pimd 8.4.4, capture elections-lab.pcap.
fn frr_elections_lab_2(out: &impl Print, err: &impl Print) {
    show_ipv4(
        out,
        err,
        b"\
vector hello 17, FRR pimd 8.4.4 at 10.7.0.2: holdtime=18 priority=3458577099
2000f6c90001000200120002000401f409c400130004ce25b2cb001400042d782eca
vector hello 18, FRR pimd 8.4.4 at 10.7.0.3: holdtime=18 priority=2
2000afed0001000200120002000401f409c40013000400000002001400041bea0824
vector hello 19, FRR pimd 8.4.4 at 10.7.0.2: holdtime=18 priority=7
200077b40001000200120002000401f409c40013000400000007001400042d782eca
vector hello 20, FRR pimd 8.4.4 at 10.7.0.1: holdtime=65535 priority=1
2000b07400010002ffff0002000401f409c40013000400000001001400043ff7e3a2
vector hello 21, FRR pimd 8.4.4 at 10.7.0.1: holdtime=105 priority=1
2000b00b0001000200690002000401f409c40013000400000001001400043ff7e3a2
vector hello 22, FRR pimd 8.4.4 at 10.7.0.3: holdtime=10 priority=1
2000a48800010002000a0002000401f409c40013000400000001001400041bea08240018000601000a4d0003
vector hello 23, FRR pimd 8.4.4 at 10.7.0.3: holdtime=10 priority=1
2000a48700010002000a0002000401f409c40013000400000001001400041bea08240018000601000a4e0003
vector hello 24, FRR pimd 8.4.4 at 10.7.0.2: holdtime=0 priority=1
200077cc0001000200000002000401f409c40013000400000001001400042d782eca
vector hello 25, FRR pimd 8.4.4 at 10.7.0.1: holdtime=0 priority=1
2000b0740001000200000002000401f409c40013000400000001001400043ff7e3a2
",
    );
}

// pimd 2.3.2, capture elections-lab.pcap.
fn pimd_elections_lab(out: &impl Print, err: &impl Print) {
    show_ipv4(
        out,
        err,
        b"\
vector hello 26, pimd 2.3.2 at 10.7.0.4: holdtime=105 priority=1
200005c700010002006900130004000000010014000462da76c2
vector hello 27, pimd 2.3.2 at 10.7.0.4: holdtime=105 priority=5
2000b98100010002006900130004000000050014000456cbcf12
vector hello 28, pimd 2.3.2 at 10.7.0.4: holdtime=105 priority=4294967294
20003c7900010002006900130004fffffffe0014000411a69146
vector hello 29, pimd 2.3.2 at 10.7.0.150: holdtime=105 priority=1
20008c2f00010002006900130004000000010014000445400df4
vector hello 30, pimd 2.3.2 at 10.7.0.150: holdtime=105 priority=5
2000031f0001000200690013000400000005001400045e247e1c
vector hello 31, pimd 2.3.2 at 10.7.0.150: holdtime=105 priority=4294967294
2000746700010002006900130004fffffffe00140004722df8d0
",
    );
}

// FRR pimd 8.4.4, capture ff-lan.pcap.
fn frr_ff_lan(out: &impl Print, err: &impl Print) {
    show_ipv4(
        out,
        err,
        b"\
vector hello 32, FRR pimd 8.4.4 at 10.7.0.11: holdtime=105 priority=1
2000e18c0001000200690002000401f409c40013000400000001001400043845b9d3
vector hello 33, FRR pimd 8.4.4 at 10.7.0.13: holdtime=105 priority=1
200044a20001000200690002000401f409c400130004000000010014000448d6462d
vector hello 34, FRR pimd 8.4.4 at 10.7.0.11: holdtime=0 priority=1
2000e1f50001000200000002000401f409c40013000400000001001400043845b9d3
vector hello 35, FRR pimd 8.4.4 at 10.7.0.14: holdtime=0 priority=1
2000a0fd0001000200000002000401f409c4001300040000000100140004701ac2f6
",
    );
}

// FRR pimd 8.4.4, capture ff-xlan.pcap.
fn frr_ff_xlan(out: &impl Print, err: &impl Print) {
    show_ipv4(
        out,
        err,
        b"\
vector hello 36, FRR pimd 8.4.4 at 10.10.0.254: holdtime=105 priority=1
200079310001000200690002000401f409c400130004000000010014000405da549a
vector hello 37, FRR pimd 8.4.4 at 10.10.0.1: holdtime=0 priority=1
2000e80d0001000200000002000401f409c40013000400000001001400046d927e6e
",
    );
}

// pimd 2.3.2, capture tt-lan.pcap.
fn pimd_tt_lan(out: &impl Print, err: &impl Print) {
    show_ipv4(
        out,
        err,
        b"\
vector hello 38, pimd 2.3.2 at 10.7.0.11: holdtime=105 priority=1
2000bf3a0001000200690013000400000001001400044ec8d160
vector hello 39, pimd 2.3.2 at 10.7.0.12: holdtime=0 priority=1
20003eed0001000200000013000400000001001400044983575c
",
    );
}

pub(crate) fn run(out: &impl Print, err: &impl Print) {
    frr_elections_lab_1(out, err);
    frr_elections_lab_2(out, err);
    pimd_elections_lab(out, err);
    frr_ff_lan(out, err);
    frr_ff_xlan(out, err);
    pimd_tt_lan(out, err);
}
