// Whether packing is allowed; then the election: two candidates, one row more, the rows of a table, and whom they elect; last the calls.
// Each row is looked at once.
ghost use Rattle.std.specs.Prelude.{◌≡◌, true, false, cond, eqb, ◌≤◌};
ghost use Rattle.format.specs.Family.{family_named};
ghost use Rattle.format.specs.Path.{number_of};
ghost use Rattle.neighbours.specs.Rows.{most, used};
ghost use Rattle.neighbours.specs.Election.{all_pack, may_pack, better, electing};
ghost use Rattle.neighbours.specs.Among.{looking, seen, chosen};
ghost use Rattle.neighbours.specs.Answers.{packing_by, elected_by};

use crate::validity::{ask, is_valid};
use crate::{Neighbour, Table};
use addresses::{is_below, is_zero};
use format::{Address, AddressFamily, Reason, Refusal, is_ipv6};

// One that may be elected.
#[derive(Clone, Copy)]
pub(crate) struct Candidate {
    pub(crate) address: Address,
    pub(crate) priority: u32,
}

// What was seen of the rows so far: none, one with address 0, only such as have a priority; and the highest in each order.
#[derive(Clone, Copy)]
pub(crate) struct Scan {
    pub(crate) none: bool,
    pub(crate) zero: bool,
    pub(crate) all_have: bool,
    pub(crate) by_priority: Candidate,
    pub(crate) by_address: Candidate,
}

// Whether every neighbour announced packing.
fn all_pack(table: Table) -> bool
    requires { table.count ≤ most }
    ensures { result ≡ all_pack (used table) }
{
    table.rows[..table.count].iter().all(|row| row.packs)
}

// The higher of two candidates, by priority and then address or by address alone.
fn better(by_priority: bool, c: Candidate, d: Candidate) -> Candidate
    ensures { result ≡ better by_priority c d }
{
    if by_priority {
        if c.priority < d.priority {
            return d;
        }
        if d.priority < c.priority {
            return c;
        }
    }
    let a = c.address;
    let b = d.address;
    if is_below(a, b) {
        return d;
    }
    c
}

// Whether an address is 0, or one before it was.
fn zero_or(address: Address, before: bool) -> bool
    ensures { result ≡ cond (eqb (number_of address) 0) true before }
{
    if is_zero(address) {
        return true;
    }
    before
}

// Whether both hold.
fn both(a: bool, b: bool) -> bool
    ensures { result ≡ cond a b false }
{
    if a {
        return b;
    }
    false
}

// One row more was looked at.
pub(crate) fn looked(s: Scan, row: Neighbour) -> Scan
    ensures { result ≡ looking s row }
{
    let address = row.address;
    let c = Candidate {
        address,
        priority: row.priority,
    };
    let by_priority = better(true, s.by_priority, c);
    let by_address = better(false, s.by_address, c);
    let zero = zero_or(address, s.zero);
    let all_have = both(row.has_priority, s.all_have);
    Scan {
        none: false,
        zero,
        all_have,
        by_priority,
        by_address,
    }
}

// The rows in use of a table were looked at too.
pub(crate) fn looked_over(table: Table, before: Scan) -> Scan
    requires { table.count ≤ most }
    ensures { result ≡ seen before (used table) }
{
    table.rows[..table.count]
        .iter()
        .fold(before, |s, row| looked(s, *row))
}

// The address that the rows looked at elect.
pub(crate) fn chosen(s: Scan) -> Address
    ensures { result ≡ chosen s }
{
    if s.all_have {
        return s.by_priority.address;
    }
    s.by_address.address
}

impl Table {
    // Whether packing is allowed: exactly if every neighbour announced it.
    pub fn packing_allowed(self, family: AddressFamily) -> Result<bool, Refusal>
        ensures { packing_by result ≡ may_pack (family_named family) self }
    {
        if is_valid(is_ipv6(family), self) {
            return Ok(all_pack(self));
        }
        Err(Reason::BadSheet.at(0))
    }

    // The designated router over the rows and our own router.
    pub fn elect(
        self,
        family: AddressFamily,
        address: Address,
        priority: u32,
    ) -> Result<Address, Refusal>
        ensures { elected_by result ≡ electing (family_named family) self address priority }
    {
        let ipv6 = is_ipv6(family);
        ask(is_valid(ipv6, self), ipv6, address)?;
        let ours = Candidate { address, priority };
        let before = Scan {
            none: false,
            zero: false,
            all_have: true,
            by_priority: ours,
            by_address: ours,
        };
        Ok(chosen(looked_over(self, before)))
    }
}
