// Lists the message on standard input. Nothing there is a message of 0 octets; where it cannot be read, nothing is listed and standard
// error says so.
//
// input.rt     standard input read to its end
#![tactic(auto)]

mod input;

use input::read_input;
use printing::text;

// The buffer is longer than the longest message, 65,515 octets, so that a longer input is refused and not cut.
fn main(rt: HostRuntime) {
    let out = rt.stdout();
    let err = rt.stderr();
    let mut buf = [0; 65536];
    match read_input(&mut rt.stdin(), &mut buf) {
        Ok(n) => listing::list(&out, &err, &buf[..n]),
        Err(_) => {
            text(&err, b"list: standard input cannot be read\n");
        }
    }
}
