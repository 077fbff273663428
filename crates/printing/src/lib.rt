// What the programs share: lines of text on standard output, tables of named octets, and octets that are lent, cut and compared.
//
// line.rt      texts, numbers, addresses and refusals
// table.rt     cases written as text: a name, and octets in hexadecimal
// part.rt      the front of a slice, what two have in common, an address or an entry put into one
#![tactic(auto)]

mod line;
mod part;
mod table;

pub use line::{address, decimal, flag, named, number, packed, refused, text, title, told};
pub use part::{front, in_common, put_address, put_assert};
pub use table::{Case, case_at, each_case, hexadecimal};
