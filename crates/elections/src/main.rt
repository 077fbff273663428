// Runs elections that other people's routers held, each with the last and with the first router of its LAN as our own,
// then with all of them as rows and none our own. The Hello of each router is written, read and heard. What is expected,
// in the file stdout, is the router that the daemons agreed on. Then some calls in IPv6.
//
// election.rt      the election among the routers of a scenario
// output.rt        a line for each election
// scenarios.rt     the scenarios
// calls.rt         calls in IPv6 that no scenario has
#![tactic(auto)]

mod calls;
mod election;
mod output;
mod scenarios;

fn main(rt: HostRuntime) {
    let out = rt.stdout();
    let err = rt.stderr();
    scenarios::run(&out, &err);
    calls::run(&out, &err);
}
