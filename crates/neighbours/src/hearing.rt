// What changes a table: a row entered, an address forgotten, each as an update, which is small; then the calls, which give the table back, updated
// once: every table on the way of an answer would be copied.
ghost use Rattle.std.specs.Prelude.{◌≡◌, true, []};
ghost use Rattle.format.specs.Family.{Family, family_of, family_named};
ghost use Rattle.format.specs.Path.{number_of};
ghost use Rattle.neighbours.specs.Rows.{used, valid, table_of};
ghost use Rattle.neighbours.specs.Hearing.{entering, leaving, hearing, forgetting};
ghost use Rattle.neighbours.specs.Answers.{done_by, done_of, table_after, Ordered, table_by, Answered};

use crate::row::{no_row, row_of};
use crate::validity::{ask, find, is_valid};
use crate::{Change, Changed, Neighbour, ROWS, Table};
use format::{Address, AddressFamily, Reason, Refusal, is_ipv6};
use hello::Hello;

// What is done to a table: the rows after number `from` move up, as far as number `to`, where `row` is stored, and then `count` rows are in use.
#[derive(Clone, Copy)]
pub(crate) struct Update {
    pub(crate) from: usize,
    pub(crate) to: usize,
    pub(crate) row: Neighbour,
    pub(crate) count: usize,
    pub(crate) change: Change,
}

// A row stored in place of an earlier one or after the last.
fn enter(table: Table, row: Neighbour) -> Result<Update, Refusal>
    requires { (f : Family) × (valid f table ≡ true) }
    ensures { Answered table (entering row (used table)) result }
{
    let address = row.address;
    let at = find(table, address);
    let count = table.count;
    if at < count {
        return Ok(Update {
            from: at,
            to: at,
            row,
            count,
            change: Change::Replaced,
        });
    }
    if count == ROWS {
        return Err(Reason::TableFull.at(0));
    }
    Ok(Update {
        from: at,
        to: at,
        row,
        count: at + 1,
        change: Change::Appended,
    })
}

// An address is forgotten: the rows after it move up, and the last row in use becomes 0.
fn leave(table: Table, address: Address) -> Result<Update, Refusal>
    requires { (f : Family) × (valid f table ≡ true) }
    ensures { Answered table (leaving (number_of address) (used table)) result }
{
    let at = find(table, address);
    let count = table.count;
    if at < count {
        let last = count - 1;
        return Ok(Update {
            from: at,
            to: last,
            row: no_row(),
            count: last,
            change: Change::Forgotten,
        });
    }
    Err(Reason::Absent.at(0))
}

// What hearing does: a row is replaced or goes last; holdtime 0 forgets its address.
fn heard(ipv6: bool, table: Table, address: Address, said: Hello) -> Result<Update, Refusal>
    ensures { Answered table (hearing (family_of ipv6) table address said) result }
{
    ask(is_valid(ipv6, table), ipv6, address)?;
    if said.holdtime == 0 {
        return leave(table, address);
    }
    enter(table, row_of(address, said))
}

// What forgetting does.
fn forgotten(ipv6: bool, table: Table, address: Address) -> Result<Update, Refusal>
    ensures { Answered table (forgetting (family_of ipv6) table address) result }
{
    ask(is_valid(ipv6, table), ipv6, address)?;
    leave(table, address)
}

// The table after an update.
fn updated(table: Table, u: Update) -> Table
    requires { Ordered u }
    ensures { result ≡ table_by table u }
{
    let mut after = table;
    after.rows.copy_within(u.from + 1..u.to + 1, u.from);
    after.rows[u.to] = u.row;
    after.count = u.count;
    after
}

impl Table {
    // A table without neighbours.
    pub fn empty() -> Table
        ensures { result ≡ table_of [] }
    {
        let zero = no_row();
        let rows = [zero; ROWS];
        Table { rows, count: 0 }
    }

    // Hearing a Hello from an address: its row is replaced or goes last; holdtime 0 forgets it.
    pub fn hear(self, family: AddressFamily, address: Address, said: Hello) -> Changed
        ensures table { result.table ≡ table_after self (hearing (family_named family) self address said) }
        ensures done { done_by result.change ≡ done_of (hearing (family_named family) self address said) }
    {
        match heard(is_ipv6(family), self, address, said) {
            Ok(u) => Changed {
                table: updated(self, u),
                change: Ok(u.change),
            },
            Err(r) => Changed {
                table: self,
                change: Err(r),
            },
        }
    }

    // Forgetting an address: the rows after it move up.
    pub fn forget(self, family: AddressFamily, address: Address) -> Changed
        ensures table { result.table ≡ table_after self (forgetting (family_named family) self address) }
        ensures done { done_by result.change ≡ done_of (forgetting (family_named family) self address) }
    {
        match forgotten(is_ipv6(family), self, address) {
            Ok(u) => Changed {
                table: updated(self, u),
                change: Ok(u.change),
            },
            Err(r) => Changed {
                table: self,
                change: Err(r),
            },
        }
    }
}
