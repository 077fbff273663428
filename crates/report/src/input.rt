// Standard input read piece by piece into one buffer. What is left of a piece, the start of a length or of a message,
// stands before the next one.
ghost use Rattle.std.specs.Prelude.{◌≡◌, ◌≤◌, length, take};
ghost use Rattle.reporting.specs.File.{file_of};
ghost use Rattle.reporting.specs.Report.{taken_from};

use reporting::Tally;
use std::io::Read;

// How standard input ends.
#[derive(Clone, Copy)]
pub(crate) enum Ending {
    Whole,
    Cut,
    // A read failed.
    Failed,
}

// What was counted up to the end.
#[derive(Clone, Copy)]
pub(crate) struct Found {
    pub tally: Tally,
    pub ending: Ending,
}

// What was counted so far, and how many octets are left at the front of the buffer.
#[derive(Clone, Copy)]
struct Counted {
    pub tally: Tally,
    pub left: usize,
}

// More reads than any input needs: each gives an octet at least.
const READS: u64 = 0xffff_ffff_ffff_ffff;

// Room for what is left of a piece, 65,536 octets at most, and as much again to read into.
pub(crate) fn buffer() -> [u8; 131072]
    ensures { 131072 ≡ length result }
{
    [0; 131072]
}

// Counts the messages that stand whole in the first n octets, and moves what is left to the front.
fn count_piece(t: Tally, buf: &mut [u8], n: usize) -> Counted
    requires { n ≤ length buf.old }
    ensures tally { result.tally ≡ (taken_from t (take n buf.old)).tally }
    ensures left { take result.left buf.new ≡ (file_of (take n buf.old)).left }
    ensures few { (result.left ≤ n) × (result.left ≤ 65536) }
    ensures long { length buf.new ≡ length buf.old }
{
    let all = reporting::with_octets(t, &buf[..n]);
    let left = n - all.used;
    buf.copy_within(all.used..n, 0);
    Counted {
        tally: all.tally,
        left,
    }
}

// Reads until the input ends or a read fails.
pub(crate) fn read_input(input: &mut impl Read, buf: &mut [u8]) -> Found {
    let mut tally = reporting::none();
    let mut left = 0;
    for _ in 0..READS {
        match input.read(&mut buf[left..]) {
            Ok(0) => return at_end(tally, left),
            Ok(more) => {
                let next = count_piece(tally, buf, left + more);
                tally = next.tally;
                left = next.left;
            }
            Err(_) => {
                return Found {
                    tally,
                    ending: Ending::Failed,
                };
            }
        }
    }
    Found {
        tally,
        ending: Ending::Cut,
    }
}

// The input ends: it is whole if nothing is left.
fn at_end(tally: Tally, left: usize) -> Found {
    if left == 0 {
        return Found {
            tally,
            ending: Ending::Whole,
        };
    }
    Found {
        tally,
        ending: Ending::Cut,
    }
}
