// The choice between the two packed assert forms: both are written, each into a buffer of its own.
ghost use Rattle.std.specs.Prelude.{◌≡◌, ◌&&◌, ◌||◌, eqb, ltb};
ghost use Rattle.format.specs.Family.{family_named};
ghost use Rattle.format.specs.Packing.{choice};
ghost use Rattle.packing.specs.Answers.{chosen_by};

use crate::limit::asked;
use crate::most::write_most;
use crate::within::Fitted;
use format::{AddressFamily, Kind, Path, Refusal, is_ipv6};

// Which form was chosen, the aggregated or the simple one, and its message: so many octets, of so many entries.
#[derive(Clone, Copy)]
pub struct Choice {
    pub aggregated: bool,
    pub length: usize,
    pub taken: usize,
}

// The one that took more entries, then the shorter, then the simple.
fn prefers_aggregated(s: Fitted, a: Fitted) -> bool
    ensures { result ≡ ltb s.taken a.taken || (eqb s.taken a.taken && ltb a.next s.next) }
{
    if s.taken < a.taken {
        return true;
    }
    if s.taken != a.taken {
        return false;
    }
    a.next < s.next
}

// Packs both forms and says which is chosen. Either buffer below the limit is refused with 8.
fn both(
    family: AddressFamily,
    path: Path,
    e: &[u8],
    start: usize,
    limit: usize,
    simple: &mut [u8],
    aggregated: &mut [u8],
) -> Result<Choice, Refusal>
    ensures answer { chosen_by result ≡ (choice (family_named family) path e.now start limit simple.old aggregated.old).answer }
    ensures simple { simple.new ≡ (choice (family_named family) path e.now start limit simple.old aggregated.old).simple_buffer }
    ensures aggregated { aggregated.new ≡ (choice (family_named family) path e.now start limit simple.old aggregated.old).aggregated_buffer }
{
    let ipv6 = is_ipv6(family);
    let room = simple.len().min(aggregated.len());
    let l = asked(ipv6, Kind::Simple, e, start, limit, room)?;
    let s = write_most(ipv6, path, Kind::Simple, e, start, l, simple);
    let a = write_most(ipv6, path, Kind::Aggregated, e, start, l, aggregated);
    if prefers_aggregated(s, a) {
        return Ok(Choice {
            aggregated: true,
            length: a.next,
            taken: a.taken,
        });
    }
    Ok(Choice {
        aggregated: false,
        length: s.next,
        taken: s.taken,
    })
}

// Both forms, and which is chosen.
pub fn pack_both(
    family: AddressFamily,
    path: Path,
    e: &[u8],
    start: usize,
    limit: usize,
    simple: &mut [u8],
    aggregated: &mut [u8],
) -> Result<Choice, Refusal>
    ensures answer { chosen_by result ≡ (choice (family_named family) path e.now start limit simple.old aggregated.old).answer }
    ensures simple { simple.new ≡ (choice (family_named family) path e.now start limit simple.old aggregated.old).simple_buffer }
    ensures aggregated { aggregated.new ≡ (choice (family_named family) path e.now start limit simple.old aggregated.old).aggregated_buffer }
{
    both(family, path, e, start, limit, simple, aggregated)
}

// The message that is chosen, as a part of the buffer that it was written into; empty where `pack_both` refuses
// and at the end of the list.
pub fn pack_chosen<'a>(
    family: AddressFamily,
    path: Path,
    e: &[u8],
    start: usize,
    limit: usize,
    simple: &'a mut [u8],
    aggregated: &'a mut [u8],
) -> &'a mut [u8]
    ensures { result.now ≡ (choice (family_named family) path e.now start limit simple.old aggregated.old).part }
{
    match both(family, path, e, start, limit, simple, aggregated) {
        Err(_) => &mut simple[..0],
        Ok(choice) => {
            if choice.aggregated {
                return &mut aggregated[..choice.length];
            }
            &mut simple[..choice.length]
        }
    }
}
