// The stored sheet.
ghost use Rattle.std.specs.Prelude.{◌≡◌, []};
ghost use Rattle.neighbours.specs.Rows.{table_of};
ghost use Rattle.sections.specs.Checking.{check_sheet, checked_by};
ghost use Rattle.sheet.specs.Calls.{read_sheet, write_sheet, found_by};
ghost use Rattle.pim.specs.Answers.{length_answer};
ghost use Rattle.pim.specs.Stored.{no_counts, check_answer, sheet_answer};
ghost use Rattle.pim.specs.Families.{family_numbered, of_family, no_family};

use crate::answers::{LengthAnswer, Refusal, accepted, length_answer};
use crate::families::{family_numbered, no_family};
use neighbours::Table;
use sheet::{Counts, SheetRead};

#[repr(C)]
#[derive(Clone, Copy)]
pub struct CheckAnswer {
    pub refusal: Refusal,
    pub counts: Counts,
}

#[repr(C)]
#[derive(Clone, Copy)]
pub struct SheetAnswer {
    pub refusal: Refusal,
    pub counts: Counts,
    pub table: Table,
}

fn no_counts() -> Counts
    ensures { result ≡ no_counts }
{
    Counts {
        asserts: 0,
        pairs: 0,
        neighbours: 0,
    }
}

fn check_answer(c: Result<Counts, format::Refusal>) -> CheckAnswer
    ensures { result ≡ check_answer (checked_by c) }
{
    match c {
        Ok(counts) => CheckAnswer {
            refusal: accepted(),
            counts,
        },
        Err(r) => CheckAnswer {
            refusal: Refusal::from(r),
            counts: no_counts(),
        },
    }
}

// Whether a sheet is valid, and how many entries it has.
#[unsafe(no_mangle)]
pub extern "C" fn pim_check_sheet(family: u8, o: &[u8]) -> CheckAnswer
    ensures { result ≡ check_answer (of_family (family_numbered family) (λ a. check_sheet a o.now) no_family) }
{
    match family_numbered(family) {
        Some(family) => check_answer(sheet::check_sheet(family, o)),
        None => check_answer(Err(no_family())),
    }
}

fn sheet_answer(s: SheetRead) -> SheetAnswer
    ensures { result ≡ sheet_answer s.table (found_by s.found) }
{
    let table = s.table;
    let found = s.found;
    match found {
        Ok(counts) => SheetAnswer {
            refusal: accepted(),
            counts,
            table,
        },
        Err(r) => SheetAnswer {
            refusal: Refusal::from(r),
            counts: no_counts(),
            table,
        },
    }
}

// Where no family is named there is no table.
fn no_sheet() -> SheetAnswer
    ensures { result ≡ sheet_answer (table_of []) no_family }
{
    SheetAnswer {
        refusal: Refusal::from(no_family()),
        counts: no_counts(),
        table: Table::empty(),
    }
}

// A sheet's two entry lists, copied, and its table.
#[unsafe(no_mangle)]
pub extern "C" fn pim_read_sheet(
    family: u8,
    o: &[u8],
    asserts: &mut [u8],
    pairs: &mut [u8],
) -> SheetAnswer
    ensures answer { result ≡ sheet_answer (of_family (family_numbered family) (λ a. (read_sheet a o.now asserts.old pairs.old).table) (table_of [])) (of_family (family_numbered family) (λ a. (read_sheet a o.now asserts.old pairs.old).answer) no_family) }
    ensures asserts { asserts.new ≡ of_family (family_numbered family) (λ a. (read_sheet a o.now asserts.old pairs.old).asserts) asserts.old }
    ensures pairs { pairs.new ≡ of_family (family_numbered family) (λ a. (read_sheet a o.now asserts.old pairs.old).pairs) pairs.old }
{
    match family_numbered(family) {
        Some(family) => sheet_answer(sheet::read_sheet(family, o, asserts, pairs)),
        None => no_sheet(),
    }
}

// The sheet of two entry lists and a table.
#[unsafe(no_mangle)]
pub extern "C" fn pim_write_sheet(
    family: u8,
    asserts: &[u8],
    pairs: &[u8],
    table: Table,
    d: &mut [u8],
) -> LengthAnswer
    ensures answer { result ≡ length_answer (of_family (family_numbered family) (λ a. (write_sheet a asserts.now pairs.now table d.old).answer) no_family) }
    ensures buffer { d.new ≡ of_family (family_numbered family) (λ a. (write_sheet a asserts.now pairs.now table d.old).buffer) d.old }
{
    match family_numbered(family) {
        Some(family) => length_answer(sheet::write_sheet(family, asserts, pairs, table, d)),
        None => length_answer(Err(no_family())),
    }
}
