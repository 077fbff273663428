// Runs of Pop-Count: link speeds compared, the attributes of RFC 6807, section 3.2, read, damaged ones refused, and
// attributes merged. What is expected, in the file stdout, was worked out from 01 by a second program.
//
// output.rt       the line of an attribute
// speeds.rt       the speeds of RFC 6807, section 3.1.1, and others, each against each
// layouts.rt      the three layouts of section 3.2, and damaged attributes
// merging.rt      0, 1, 2 and 20 contributors, with and without each option, and at the maxima
#![tactic(auto)]

mod layouts;
mod merging;
mod output;
mod speeds;

fn main(rt: HostRuntime) {
    let out = rt.stdout();
    speeds::run(&out);
    layouts::run(&out);
    merging::run(&out);
}
