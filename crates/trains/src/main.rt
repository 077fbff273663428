// Packs entries and reads the messages back, in both families: the examples that the rule book, 01, marks for the packing
// calls, the choice between the two packed assert forms, then trains of aggregated messages over a list of 1,024 entries,
// one train for each limit, and one whose calls pass two limits by turns. What is expected, in the file stdout, was worked
// out from the documents by a second program.
//
// call.rt         the aggregated packing call, named in one place, and the path of its messages
// output.rt       what a packing call answered
// lists.rt        the short lists of the examples and of the choice
// examples.rt     01's examples 3, 4, 5, 6 and 8, and limit 0
// choice.rt       both packed assert forms, and the one that is chosen
// rule.rt         the rule that makes the list of entries
// train.rt        the list packed until nothing is left, each message read back, and the two lists compared
#![tactic(auto)]

mod call;
mod choice;
mod examples;
mod lists;
mod output;
mod rule;
mod train;

use format::AddressFamily;
use printing::front;

fn main(rt: HostRuntime) {
    let out = rt.stdout();
    let four = rule::list(AddressFamily::Ipv4);
    let six = rule::list(AddressFamily::Ipv6);
    let list = front(&four, rule::place(AddressFamily::Ipv4, rule::COUNT));
    examples::run(&out, list);
    choice::run(&out);
    train::ipv4(&out, list);
    train::ipv6(
        &out,
        front(&six, rule::place(AddressFamily::Ipv6, rule::COUNT)),
    );
}
