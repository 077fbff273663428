// The tests of a whole table: where an address stands, whether the table is valid; then what every call asks first.
ghost use Rattle.std.specs.Prelude.{◌≡◌, ◌≤◌, drop};
ghost use Rattle.format.specs.Family.{family_of};
ghost use Rattle.format.specs.Path.{number_of};
ghost use Rattle.neighbours.specs.Rows.{most, place, used, all_zero, valid};
ghost use Rattle.neighbours.specs.Hearing.{asked};
ghost use Rattle.neighbours.specs.Answers.{asked_by};

use crate::row::{is_allowed, rest_of_row};
use crate::{ROWS, Table};
use addresses::{is_in_family, is_same, is_zero};
use format::{Address, Reason, Refusal};

// Where an address stands among the rows in use; their number if nowhere. Table is C's struct and may come with any count, so what looks at the rows in
// use asks for one within them. `row.address == address` is no plainer: its proof wants the numbers, of which is_same speaks.
pub(crate) fn find(table: Table, address: Address) -> usize
    requires { table.count ≤ most }
    ensures { result ≡ place (number_of address) (used table) }
{
    table.rows[..table.count]
        .iter()
        .position(|row| is_same(row.address, address))
        .unwrap_or(table.count)
}

// Whether the rows not in use are all 0. The bits of their numbers are only gathered, and tested once at the end: a test in each row takes longer. They
// are gathered in three numbers, which do not wait for each other.
fn rest_is_zero(table: Table) -> bool
    requires { table.count ≤ most }
    ensures { result ≡ all_zero (drop table.count table.rows) }
{
    let mut highs: u64 = 0;
    let mut lows: u64 = 0;
    let mut others: u64 = 0;
    for row in &table.rows[table.count..] {
        highs |= row.address.high;
        lows |= row.address.low;
        others |= rest_of_row(row.priority, row.has_priority, row.packs, row.holdtime);
    }
    let found = highs | lows | others;
    found == 0
}

// Whether row 14 of 01's table lets a table pass. An address whose last octet was not met is new, and only another is looked for: so
// most rows are looked at once. A full table has no rows that are not in use, and is not copied to look at them.
pub fn is_valid(ipv6: bool, table: Table) -> bool
    ensures { result ≡ valid (family_of ipv6) table }
{
    let count = table.count;
    if count > ROWS {
        return false;
    }
    if count < ROWS && !rest_is_zero(table) {
        return false;
    }
    let mut met = [false; 256];
    for (i, row) in table.rows[..count].iter().enumerate() {
        if !is_allowed(ipv6, *row) {
            return false;
        }
        let address = row.address;
        let slot = (address.low % 256) as usize;
        if met[slot] && find(table, address) < i {
            return false;
        }
        met[slot] = true;
    }
    true
}

// What every call asks first: the table, then the address. It is given whether the table is valid, since the table would be copied.
pub(crate) fn ask(ok: bool, ipv6: bool, address: Address) -> Result<(), Refusal>
    ensures { (t : Table) → ok ≡ valid (family_of ipv6) t → asked_by result ≡ asked (family_of ipv6) t address }
{
    if !ok {
        return Err(Reason::BadSheet.at(0));
    }
    if !is_in_family(ipv6, address) {
        return Err(Reason::BadSheet.at(0));
    }
    if is_zero(address) {
        return Err(Reason::BadAddress.at(0));
    }
    Ok(())
}
