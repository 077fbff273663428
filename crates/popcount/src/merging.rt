// The merging call: the contributors tallied, then the merged attribute written if the buffer holds it.
ghost use Rattle.std.specs.Prelude.{◌≡◌};
ghost use Rattle.format.specs.Writing.{length_by};
ghost use Rattle.popcount.specs.Merging.{merging};
ghost use Rattle.popcount.specs.Tally.{finishing};

use crate::tally::{Own, attribute_of, count_all};
use crate::write::{put_attribute, sizes_of};
use attributes::Attribute;
use format::{Reason, Refusal};

// The merged attribute, if the buffer holds it.
fn finish(a: Attribute, d: &mut [u8]) -> Result<usize, Refusal>
    ensures answer { length_by result ≡ (finishing d.old a).answer }
    ensures buffer { d.new ≡ (finishing d.old a).buffer }
{
    let size = sizes_of(a.options);
    if d.len() < 8 + size {
        return Err(Reason::NoRoom.at(0));
    }
    put_attribute(d, a, size);
    Ok(8 + size)
}

// Our own values and the contributors', merged: a contributor's fault, then 8, and a refusal writes nothing.
pub fn merge(own: Own, e: bool, contributors: &[u8], d: &mut [u8]) -> Result<usize, Refusal>
    ensures answer { length_by result ≡ (merging own e contributors.now d.old).answer }
    ensures buffer { d.new ≡ (merging own e contributors.now d.old).buffer }
{
    let t = count_all(own, contributors)?;
    finish(attribute_of(e, t), d)
}
