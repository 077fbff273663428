// What a packing call refuses before it writes: 9, 8, 10, then 7.
ghost use Rattle.std.specs.Prelude.{◌≡◌};
ghost use Rattle.format.specs.Family.{family_of};
ghost use Rattle.format.specs.Packing.{read_limit, asked as asked_of};
ghost use Rattle.entries.specs.Kinds.{entries_for};
ghost use Rattle.packing.specs.Answers.{limit_of, limited};

use addresses::least_limit;
use entries::{entry_size, first_bad};
use format::{GREATEST_LIMIT, Kind, Reason, Refusal, usual_limit};

fn read_limit(ipv6: bool, limit: usize) -> Result<usize, Refusal>
    ensures { limit_of result ≡ read_limit (family_of ipv6) limit }
{
    if limit == 0 {
        return Ok(usual_limit());
    }
    if limit < least_limit(ipv6) {
        return Err(Reason::BadLimit.at(0));
    }
    if GREATEST_LIMIT < limit {
        return Err(Reason::BadLimit.at(0));
    }
    Ok(limit)
}

// The limit as read, where nothing is to be refused.
pub(crate) fn asked(
    ipv6: bool,
    kind: Kind,
    e: &[u8],
    start: usize,
    limit: usize,
    room: usize,
) -> Result<usize, Refusal>
    ensures { limit_of result ≡ limited (asked_of (entries_for ipv6 kind) e.now start limit room) }
{
    let l = read_limit(ipv6, limit)?;
    let size = entry_size(ipv6, true, kind);
    let count = e.len() / size;
    if room < l {
        return Err(Reason::NoRoom.at(0));
    }
    if e.len() % size != 0 {
        return Err(Reason::BadList.at(0));
    }
    if count < start {
        return Err(Reason::BadList.at(0));
    }
    match first_bad(ipv6, true, kind, e, start) {
        None => Ok(l),
        Some(i) => Err(Reason::BadAddress.at(i)),
    }
}
