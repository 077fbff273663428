// Hellos of IPv6 written: the answer, the octets, then the listing of the message. What is expected of the octets is worked out by hand.
use crate::shown::{path, written};
use crate::written::saying;
use format::AddressFamily;
use hello::Hello;
use printing::{front, named, title};

fn show(out: &impl Print, err: &impl Print, name: &[u8], said: Hello) {
    let mut d = [0; 22];
    title(out, name);
    match hello::write_hello(AddressFamily::Ipv6, path(), said, &mut d) {
        Ok(n) => {
            named(out, b"octets ", n as u64);
            written(out, err, front(&d, n));
        }
        Err(r) => listing::refused(out, err, r),
    }
}

pub(crate) fn run(out: &impl Print, err: &impl Print) {
    show(
        out,
        err,
        b"written in IPv6: holdtime, least",
        saying(0, false, 0, false),
    );
    show(
        out,
        err,
        b"written in IPv6: holdtime, greatest",
        saying(65535, false, 0, false),
    );
    show(
        out,
        err,
        b"written in IPv6: packing",
        saying(1, false, 0, true),
    );
    show(
        out,
        err,
        b"written in IPv6: priority, least",
        saying(0, true, 0, false),
    );
    show(
        out,
        err,
        b"written in IPv6: priority, greatest",
        saying(65535, true, 4294967295, false),
    );
    show(
        out,
        err,
        b"written in IPv6: all",
        saying(105, true, 305419896, true),
    );
}
