// The most of some entries that fit into one message, and that message.
ghost use Rattle.std.specs.Prelude.{◌≡◌, ◌+◌, ◌*◌, ◌≤◌, ◌<◌, length, drop};
ghost use Rattle.octets.specs.Octets.{put};
ghost use Rattle.format.specs.Family.{family_of};
ghost use Rattle.format.specs.Header.{longest};
ghost use Rattle.format.specs.Entry.{count, entries_at, entries_of};
ghost use Rattle.format.specs.Packing.{least_limit, canonical, taken, octets_of, took_of, pack};
ghost use Rattle.entries.specs.Kinds.{entries_for};
ghost use Rattle.packing.specs.Kinds.{form_for, records_for, head_size, fitting, Packs};

use crate::message::{layout_of, put_front};
use crate::record::{put_records, record_size};
use crate::within::{Fitted, put_within};
use entries::{entry_size, is_assert};
use format::{Kind, Path};

// How many of n entries fit, where every record has one length.
fn how_many_fixed(ipv6: bool, kind: Kind, limit: usize, n: usize) -> usize
    requires { Packs ipv6 kind × (0 < n) × (head_size kind ≤ limit) }
    ensures { result ≡ fitting ipv6 kind limit n }
{
    let l = layout_of(kind);
    let fit = (limit - l.head) / record_size(ipv6, is_assert(kind));
    if l.one {
        return fit.min(1);
    }
    fit.min(n)
}

// The records of the most of n entries that fit, past the head of their message.
fn put_fitting<const IPV6: bool>(
    kind: Kind,
    e: &[u8],
    from: usize,
    n: usize,
    limit: usize,
    d: &mut [u8],
    out: usize,
) -> Fitted
    requires { Packs IPV6 kind × (0 < n) × (from + (entries_for IPV6 kind).size * n ≤ length e.now) × (least_limit (family_of IPV6) ≤ limit) × (limit ≤ length d.old) × (out ≡ head_size kind) }
    ensures taken { result.taken ≡ taken (form_for IPV6 kind) limit (entries_at (entries_for IPV6 kind) e.now from n) }
    ensures next { result.next ≡ out + length (records_for IPV6 kind (entries_at (entries_for IPV6 kind) e.now from result.taken)) }
    ensures buffer { d.new ≡ put d.old out (records_for IPV6 kind (entries_at (entries_for IPV6 kind) e.now from result.taken)) }
{
    let l = layout_of(kind);
    if l.aggregated {
        return put_within::<IPV6>(e, from, n, d, out, limit);
    }
    let taken = how_many_fixed(IPV6, kind, limit, n);
    let next = put_records::<IPV6>(kind, e, from, taken, d, out);
    Fitted { taken, next }
}

// The same by a family that is known at run time: the one place where it becomes a const parameter, so that the compiler makes each loop for each.
fn put_most(
    ipv6: bool,
    kind: Kind,
    e: &[u8],
    from: usize,
    n: usize,
    limit: usize,
    d: &mut [u8],
    out: usize,
) -> Fitted
    requires { Packs ipv6 kind × (0 < n) × (from + (entries_for ipv6 kind).size * n ≤ length e.now) × (least_limit (family_of ipv6) ≤ limit) × (limit ≤ length d.old) × (out ≡ head_size kind) }
    ensures taken { result.taken ≡ taken (form_for ipv6 kind) limit (entries_at (entries_for ipv6 kind) e.now from n) }
    ensures next { result.next ≡ out + length (records_for ipv6 kind (entries_at (entries_for ipv6 kind) e.now from result.taken)) }
    ensures buffer { d.new ≡ put d.old out (records_for ipv6 kind (entries_at (entries_for ipv6 kind) e.now from result.taken)) }
{
    if ipv6 {
        return put_fitting::<true>(kind, e, from, n, limit, d, out);
    }
    put_fitting::<false>(kind, e, from, n, limit, d, out)
}

// The message of the most of n entries that fit: how many it takes, and its length.
fn write_message(
    ipv6: bool,
    path: Path,
    kind: Kind,
    e: &[u8],
    from: usize,
    n: usize,
    limit: usize,
    d: &mut [u8],
) -> Fitted
    requires { Packs ipv6 kind × (0 < n) × (from + (entries_for ipv6 kind).size * n ≤ length e.now) × (least_limit (family_of ipv6) ≤ limit) × (limit ≤ longest) × (limit ≤ length d.old) }
    ensures taken { result.taken ≡ taken (form_for ipv6 kind) limit (entries_at (entries_for ipv6 kind) e.now from n) }
    ensures size { result.next ≡ length (canonical (form_for ipv6 kind) path (entries_at (entries_for ipv6 kind) e.now from result.taken)) }
    ensures buffer { d.new ≡ put d.old 0 (canonical (form_for ipv6 kind) path (entries_at (entries_for ipv6 kind) e.now from result.taken)) }
{
    let head = put_front(kind, d);
    let records = put_most(ipv6, kind, e, from, n, limit, d, head);
    headers::seal(ipv6, path, kind, d, records.next);
    records
}

// The message of the most of the entries from a number on that fit: how many it takes, and its length. Of no entries
// there is none.
pub(crate) fn write_most(
    ipv6: bool,
    path: Path,
    kind: Kind,
    e: &[u8],
    start: usize,
    limit: usize,
    d: &mut [u8],
) -> Fitted
    requires { Packs ipv6 kind × (start ≤ count (entries_for ipv6 kind) e.now) × (least_limit (family_of ipv6) ≤ limit) × (limit ≤ longest) × (limit ≤ length d.old) }
    ensures answer { (result.next ≡ length (octets_of (pack (form_for ipv6 kind) path limit (drop start (entries_of (entries_for ipv6 kind) e.now))))) × (result.taken ≡ took_of (pack (form_for ipv6 kind) path limit (drop start (entries_of (entries_for ipv6 kind) e.now)))) }
    ensures buffer { d.new ≡ put d.old 0 (octets_of (pack (form_for ipv6 kind) path limit (drop start (entries_of (entries_for ipv6 kind) e.now)))) }
{
    let size = entry_size(ipv6, true, kind);
    let n = e.len() / size - start;
    if n == 0 {
        return Fitted { taken: 0, next: 0 };
    }
    write_message(ipv6, path, kind, e, size * start, n, limit, d)
}
