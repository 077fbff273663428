// Reports on the file on standard input: messages, each preceded by its length in 16 bits. A line for each kind, for each
// number and for the mean, then whether the file is whole. The file may have any length. Where it cannot be read on,
// standard error says so, and the report is that of a file cut there.
//
// input.rt     standard input read piece by piece, and its messages counted
// lines.rt     the report printed
#![tactic(auto)]

mod input;
mod lines;

use input::{Ending, read_input};
use printing::text;

// The ending tells a read that failed.
fn told(err: &impl Print, ending: Ending) -> bool {
    match ending {
        Ending::Whole => true,
        Ending::Cut => false,
        Ending::Failed => {
            text(err, b"report: standard input cannot be read\n");
            false
        }
    }
}

fn main(rt: HostRuntime) {
    let out = rt.stdout();
    let err = rt.stderr();
    let mut buf = input::buffer();
    let found = read_input(&mut rt.stdin(), &mut buf);
    let whole = told(&err, found.ending);
    lines::print(&out, &err, found.tally, whole);
}
