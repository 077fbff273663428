// The neighbour table and the election.
ghost use Rattle.std.specs.Prelude.{◌≡◌, []};
ghost use Rattle.neighbours.specs.Rows.{table_of};
ghost use Rattle.neighbours.specs.Hearing.{hearing, forgetting};
ghost use Rattle.neighbours.specs.Election.{may_pack, electing};
ghost use Rattle.neighbours.specs.Among.{electing_among};
ghost use Rattle.neighbours.specs.Answers.{done_by, packing_by, elected_by};
ghost use Rattle.format.specs.Family.{family_named};
ghost use Rattle.pim.specs.Answers.{accepted, table_answer, changed_by, allowed_answer, elect_answer};
ghost use Rattle.pim.specs.Families.{family_numbered, of_family, no_family};

use crate::answers::{Refusal, accepted};
use crate::families::{family_numbered, no_family};
use format::Address;
use hello::Hello;
use neighbours::{Change, Changed, Neighbour, Table};

#[repr(C)]
#[derive(Clone, Copy)]
pub struct TableAnswer {
    pub refusal: Refusal,
    pub table: Table,
    pub done: u8,
}

#[repr(C)]
#[derive(Clone, Copy)]
pub struct AllowedAnswer {
    pub refusal: Refusal,
    pub allowed: bool,
}

#[repr(C)]
#[derive(Clone, Copy)]
pub struct ElectAnswer {
    pub refusal: Refusal,
    pub address: Address,
}

// A table without neighbours.
#[unsafe(no_mangle)]
pub extern "C" fn pim_table_empty() -> Table
    ensures { result ≡ table_of [] }
{
    Table::empty()
}

fn changed(table: Table, done: u8) -> TableAnswer
    ensures { result ≡ record { refusal = record { number = 0; place = 0 }; table = table; done = done } }
{
    TableAnswer {
        refusal: accepted(),
        table,
        done,
    }
}

// The number of what was done, where nothing is refused.
fn done_number(done: Change) -> u8
    ensures { (t : Table) → table_answer t (done_by (Ok done)) ≡ record { refusal = accepted; table = t; done = result } }
{
    match done {
        Change::Replaced => 1,
        Change::Appended => 2,
        Change::Forgotten => 3,
    }
}

fn table_answer(c: Changed) -> TableAnswer
    ensures { result ≡ table_answer c.table (done_by c.change) }
{
    match c.change {
        Ok(done) => changed(c.table, done_number(done)),
        Err(r) => TableAnswer {
            refusal: Refusal::from(r),
            table: c.table,
            done: 0,
        },
    }
}

// A table as it was, of no family.
fn not_changed(table: Table) -> TableAnswer
    ensures { result ≡ table_answer table no_family }
{
    TableAnswer {
        refusal: Refusal::from(no_family()),
        table,
        done: 0,
    }
}

// Hearing a Hello from an address.
#[unsafe(no_mangle)]
pub extern "C" fn pim_hear(family: u8, table: Table, address: Address, said: Hello) -> TableAnswer
    ensures { result ≡ changed_by table (of_family (family_numbered family) (λ a. hearing (family_named a) table address said) no_family) }
{
    match family_numbered(family) {
        Some(family) => table_answer(table.hear(family, address, said)),
        None => not_changed(table),
    }
}

// Forgetting an address.
#[unsafe(no_mangle)]
pub extern "C" fn pim_forget(family: u8, table: Table, address: Address) -> TableAnswer
    ensures { result ≡ changed_by table (of_family (family_numbered family) (λ a. forgetting (family_named a) table address) no_family) }
{
    match family_numbered(family) {
        Some(family) => table_answer(table.forget(family, address)),
        None => not_changed(table),
    }
}

fn allowed_answer(p: Result<bool, format::Refusal>) -> AllowedAnswer
    ensures { result ≡ allowed_answer (packing_by p) }
{
    match p {
        Ok(allowed) => AllowedAnswer {
            refusal: accepted(),
            allowed,
        },
        Err(r) => AllowedAnswer {
            refusal: Refusal::from(r),
            allowed: false,
        },
    }
}

// Whether packing is allowed.
#[unsafe(no_mangle)]
pub extern "C" fn pim_packing_allowed(family: u8, table: Table) -> AllowedAnswer
    ensures { result ≡ allowed_answer (of_family (family_numbered family) (λ a. may_pack (family_named a) table) no_family) }
{
    match family_numbered(family) {
        Some(family) => allowed_answer(table.packing_allowed(family)),
        None => allowed_answer(Err(no_family())),
    }
}

fn elect_answer(e: Result<Address, format::Refusal>) -> ElectAnswer
    ensures { result ≡ elect_answer (elected_by e) }
{
    match e {
        Ok(address) => ElectAnswer {
            refusal: accepted(),
            address,
        },
        Err(r) => ElectAnswer {
            refusal: Refusal::from(r),
            address: Address { high: 0, low: 0 },
        },
    }
}

// The designated router over the rows and our own router.
#[unsafe(no_mangle)]
pub extern "C" fn pim_elect(
    family: u8,
    table: Table,
    address: Address,
    priority: u32,
) -> ElectAnswer
    ensures { result ≡ elect_answer (of_family (family_numbered family) (λ a. electing (family_named a) table address priority) no_family) }
{
    match family_numbered(family) {
        Some(family) => elect_answer(table.elect(family, address, priority)),
        None => elect_answer(Err(no_family())),
    }
}

// The designated router over a lent list of rows, without our own router; only their addresses are looked at.
#[unsafe(no_mangle)]
pub extern "C" fn pim_elect_among(rows: &[Neighbour]) -> ElectAnswer
    ensures { result ≡ elect_answer (electing_among rows.now) }
{
    elect_answer(neighbours::elect_among(rows))
}
