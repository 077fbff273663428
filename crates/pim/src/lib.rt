// The library that other languages link: every call of the crates below under a name of its own, over numbers, byte slices and small records,
// of which counters and a list of rows are lent and the others passed. There is no logic here: each function hands its arguments on and
// puts the answer into a record that C can hold. include/pim.h describes each of them.
//
// answers.rt      what several calls answer with
// families.rt     the family that a number names
// messages.rt     header, body, a record read singly, the reading calls; a Hello written
// packs.rt        the packing calls
// tables.rt       the neighbour table and the election
// totals.rt       the counters
// reports.rt      the report of a file
// popcounts.rt    Pop-Count attributes
// stored.rt       the stored sheet
// sums.rt         the checksum
#![tactic(auto)]

mod answers;
mod families;
mod messages;
mod packs;
mod popcounts;
mod reports;
mod stored;
mod sums;
mod tables;
mod totals;
