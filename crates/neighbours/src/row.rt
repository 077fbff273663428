// One row of the table: one that is not in use, what a row has besides its address as one number, whether a sheet may hold it, and the row that a
// Hello gives.
ghost use Rattle.std.specs.Prelude.{◌≡◌, cond, ◌≤◌};
ghost use Rattle.format.specs.Family.{family_of};
ghost use Rattle.neighbours.specs.Rows.{no_row, rest_of, allowed};
ghost use Rattle.neighbours.specs.Hearing.{row_of};

use crate::Neighbour;
use addresses::{is_in_family, is_zero};
use format::Address;
use hello::Hello;

// A row that is not in use.
pub(crate) fn no_row() -> Neighbour
    ensures { result ≡ no_row }
{
    let address = Address { high: 0, low: 0 };
    Neighbour {
        address,
        priority: 0,
        has_priority: false,
        packs: false,
        holdtime: 0,
    }
}

// A number, or 0.
fn number_if(b: bool, n: u64) -> u64
    ensures { (result ≡ cond b n 0) × (result ≤ n) }
{
    if b {
        return n;
    }
    0
}

// What a row has besides its address, as one number: it is 0 exactly if they all are. They stand as in the row's octets, so that the compiler reads
// them at once.
pub(crate) fn rest_of_row(priority: u32, has_priority: bool, packs: bool, holdtime: u16) -> u64
    ensures { result ≡ rest_of priority has_priority packs holdtime }
{
    priority as u64
        + number_if(has_priority, 4294967296)
        + number_if(packs, 1099511627776)
        + holdtime as u64 * 281474976710656
}

// Whether a sheet of a family may hold a row.
pub fn is_allowed(ipv6: bool, row: Neighbour) -> bool
    ensures { result ≡ allowed (family_of ipv6) row }
{
    let address = row.address;
    if !is_in_family(ipv6, address) {
        return false;
    }
    if is_zero(address) {
        return false;
    }
    if row.holdtime == 0 {
        return false;
    }
    if row.has_priority {
        return true;
    }
    row.priority == 0
}

// The row of an address and what its Hello said.
pub(crate) fn row_of(address: Address, said: Hello) -> Neighbour
    ensures { result ≡ row_of address said }
{
    let mut row = Neighbour {
        address,
        priority: 0,
        has_priority: said.has_priority,
        packs: said.packing,
        holdtime: said.holdtime,
    };
    if said.has_priority {
        row.priority = said.priority;
    }
    row
}
