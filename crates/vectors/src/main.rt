// Runs messages that other people's routers sent or that other programs read, each by its listing. What is expected of
// them, in the file stdout, stands in the notes of who read them; a message that tshark reads no pair of 01 refuses.
//
// vectors_hello.rt      Hellos
// vectors_hello6.rt     Hellos of IPv6
// vectors_assert.rt     plain Asserts, and packed Null-Registers and Register-Stops
#![tactic(auto)]

mod vectors_assert;
mod vectors_hello;
mod vectors_hello6;

use format::{AddressFamily, nowhere};

pub(crate) fn show_ipv4(out: &impl Print, err: &impl Print, table: &[u8]) {
    listing::show_all(out, err, AddressFamily::Ipv4, nowhere(), table);
}

fn main(rt: HostRuntime) {
    let out = rt.stdout();
    let err = rt.stderr();
    vectors_hello::run(&out, &err);
    vectors_assert::run(&out, &err);
    vectors_hello6::run(&out, &err);
}
