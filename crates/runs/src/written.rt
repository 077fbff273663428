// Hellos written: the answer, how many octets are as worked out by hand, then the listing of the message. All four
// shapes, each with the least and the greatest value of its fields.
//
// In a sum of words ffff counts as 0, so a Hello of greatest values has the checksum of least ones. The last is 20b0 in
// all: 2000 and 1, 2, 69; 13, 4, 0, 5; 28, 0.
use format::{AddressFamily, nowhere};
use hello::Hello;
use printing::{front, in_common, number, text, title};

// What a Hello says.
pub(crate) fn saying(holdtime: u16, has_priority: bool, priority: u32, packing: bool) -> Hello {
    Hello {
        holdtime,
        has_priority,
        priority,
        packing,
    }
}

fn show(out: &impl Print, err: &impl Print, name: &[u8], said: Hello, by_hand: &[u8]) {
    let mut d = [0; 22];
    title(out, name);
    match hello::write_hello(AddressFamily::Ipv4, nowhere(), said, &mut d) {
        Ok(n) => {
            number(out, b"octets ", n as u64);
            number(out, b", as by hand ", in_common(&d, by_hand) as u64);
            text(out, b"\n");
            listing::list(out, err, front(&d, n));
        }
        Err(r) => listing::refused(out, err, r),
    }
}

fn without_priority(out: &impl Print, err: &impl Print) {
    show(
        out,
        err,
        b"written: holdtime, least",
        saying(0, false, 0, false),
        b"\x20\x00\xdf\xfc\x00\x01\x00\x02\x00\x00",
    );
    show(
        out,
        err,
        b"written: holdtime, greatest",
        saying(65535, false, 0, false),
        b"\x20\x00\xdf\xfc\x00\x01\x00\x02\xff\xff",
    );
    show(
        out,
        err,
        b"written: packing, least",
        saying(0, false, 0, true),
        b"\x20\x00\xdf\xd4\x00\x01\x00\x02\x00\x00\x00\x28\x00\x00",
    );
    show(
        out,
        err,
        b"written: packing, greatest",
        saying(65535, false, 0, true),
        b"\x20\x00\xdf\xd4\x00\x01\x00\x02\xff\xff\x00\x28\x00\x00",
    );
}

fn with_priority(out: &impl Print, err: &impl Print) {
    show(
        out,
        err,
        b"written: priority, least",
        saying(0, true, 0, false),
        b"\x20\x00\xdf\xe5\x00\x01\x00\x02\x00\x00\x00\x13\x00\x04\x00\x00\x00\x00",
    );
    show(
        out,
        err,
        b"written: priority, greatest",
        saying(65535, true, 4294967295, false),
        b"\x20\x00\xdf\xe5\x00\x01\x00\x02\xff\xff\x00\x13\x00\x04\xff\xff\xff\xff",
    );
    show(
        out,
        err,
        b"written: all, least",
        saying(0, true, 0, true),
        b"\x20\x00\xdf\xbd\x00\x01\x00\x02\x00\x00\x00\x13\x00\x04\x00\x00\x00\x00\x00\x28\x00\x00",
    );
    show(
        out,
        err,
        b"written: all, greatest",
        saying(65535, true, 4294967295, true),
        b"\x20\x00\xdf\xbd\x00\x01\x00\x02\xff\xff\x00\x13\x00\x04\xff\xff\xff\xff\x00\x28\x00\x00",
    );
    show(
        out,
        err,
        b"written: all, usual holdtime",
        saying(105, true, 5, true),
        b"\x20\x00\xdf\x4f\x00\x01\x00\x02\x00\x69\x00\x13\x00\x04\x00\x00\x00\x05\x00\x28\x00\x00",
    );
}

// 8: one octet less than the message has.
fn refused(out: &impl Print, err: &impl Print) {
    let mut d = [0; 21];
    let answer = hello::write_hello(
        AddressFamily::Ipv4,
        nowhere(),
        saying(105, true, 5, true),
        &mut d,
    );
    title(out, b"written: into 21 octets");
    match answer {
        Ok(n) => {
            number(out, b"octets ", n as u64);
            text(out, b"\n");
        }
        Err(r) => listing::refused(out, err, r),
    }
}

pub(crate) fn run(out: &impl Print, err: &impl Print) {
    without_priority(out, err);
    with_priority(out, err);
    refused(out, err);
}
