// Runs of the stored sheet in all its forms: the base form of 01, form 2 of its enlargement, and forms 3 and 4 of the two families. A small
// sheet checked, damaged and cut, empty ones and full ones read and written again in the newest form, counts at their limits and over them,
// a full table, and what reading and writing refuse. What is expected, in the file stdout, was worked out from the documents by a second
// program.
//
// output.rt        what the calls answered, a line each
// built.rt         sheets of every form, built octet by octet
// small.rt         a sheet of two asserts, two pairs and two neighbours in every form: each fault once, and cut at every octet
// whole.rt         empty sheets and full ones: checked, read and written again
// limits.rt        counts at each limit and over it, and first words
// table.rt         as many neighbours as a table holds, and one more
// refusals.rt      what reading and writing refuse
// sources.rt       stored sheets with sources that are not allowed
#![tactic(auto)]

mod built;
mod limits;
mod output;
mod refusals;
mod small;
mod sources;
mod table;
mod whole;

fn main(rt: HostRuntime) {
    let out = rt.stdout();
    small::run(&out);
    whole::run(&out);
    limits::run(&out);
    table::run(&out);
    refusals::run(&out);
    sources::run(&out);
}
