// Counts traffic: messages of every kind that are received, records read singly out of the body that is handed back, and messages
// that are packed to be sent. Each is counted on counters that are lent, and all counters are printed at the end. The
// messages and entries are made by hand; what is expected, in the file stdout, is worked out by hand from 01, the rule book.
//
// lend.rt         a message counted, on counters that are lent; what is refused is said
// receive.rt      a message received: its records, then counted
// received.rt     messages of each kind, and damaged ones
// sent.rt         messages packed, then counted
// totals.rt       the counters printed
#![tactic(auto)]

mod lend;
mod receive;
mod received;
mod sent;
mod totals;

fn main(rt: HostRuntime) {
    let out = rt.stdout();
    let err = rt.stderr();
    let c = received::run(&out, &err, counters::none());
    let all = sent::run(&out, &err, c);
    totals::print(&out, all);
}
