// Election over a lent list of neighbour rows, without our own router; and over the first rows of an array.
ghost use Rattle.std.specs.Prelude.{◌≡◌, cond, ltb, take};
ghost use Rattle.neighbours.specs.Rows.{most};
ghost use Rattle.neighbours.specs.Answers.{elected_by};
ghost use Rattle.neighbours.specs.Among.{first, answering, electing_among};

use crate::election::{Candidate, Scan, chosen, looked, looked_over};
use crate::{Neighbour, ROWS, Table};
use format::{Address, Reason, Refusal};

// No row was looked at: both candidates are 0.
fn start() -> Scan
    ensures { result ≡ first }
{
    let address = Address { high: 0, low: 0 };
    let nobody = Candidate {
        address,
        priority: 0,
    };
    Scan {
        none: true,
        zero: false,
        all_have: true,
        by_priority: nobody,
        by_address: nobody,
    }
}

// What the rows looked at elect.
fn answer(s: Scan) -> Result<Address, Refusal>
    ensures { elected_by result ≡ answering s }
{
    if s.none {
        return Err(Reason::Absent.at(0));
    }
    if s.zero {
        return Err(Reason::BadAddress.at(0));
    }
    Ok(chosen(s))
}

// The designated router over a lent list of rows.
pub fn elect_among(rows: &[Neighbour]) -> Result<Address, Refusal>
    ensures { elected_by result ≡ electing_among rows.now }
{
    answer(rows.iter().fold(start(), |s, row| looked(s, *row)))
}

// The rows in use, at most all.
fn at_most(count: usize) -> usize
    ensures { result ≡ cond (ltb most count) most count }
{
    if ROWS < count {
        return ROWS;
    }
    count
}

// The designated router over the first n rows of an array, by value, for callers who do not lend.
pub fn elect_rows(rows: [Neighbour; ROWS], n: usize) -> Result<Address, Refusal>
    ensures { elected_by result ≡ electing_among (take n rows) }
{
    let table = Table {
        rows,
        count: at_most(n),
    };
    answer(looked_over(table, start()))
}
