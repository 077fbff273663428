// The reading calls. A refusal leaves the lent entries as they were, so a message is read twice: checked and
// counted to its end, and only then copied.
ghost use Rattle.std.specs.Prelude.{◌≡◌, ◌*◌, ◌≤◌, length};
ghost use Rattle.octets.specs.Octets.{put};
ghost use Rattle.format.specs.Family.{family_of, family_named};
ghost use Rattle.format.specs.Record.{each};
ghost use Rattle.format.specs.Reading.{read_asserts, read_pairs};
ghost use Rattle.counting.specs.Counts.{counted, tallied};
ghost use Rattle.reading.specs.Plain.{entries_for, entry_size};
ghost use Rattle.reading.specs.Calls.{answered, body_for, read_for, value_of, HasCounted};

use crate::copy::{copy_aggregated, copy_records, entry_size};
use counting::{Counted, count_asserts, count_pairs};
use format::{AddressFamily, Kind, Path, Reason, Refusal, is_ipv6};
use headers::header;

// What a reading call found: the kind, and the number of entries.
#[derive(Clone, Copy)]
pub struct Reading {
    pub kind: Kind,
    pub count: usize,
}

// The entries of a body, counted.
fn count(ipv6: bool, is_assert: bool, kind: Kind, m: &[u8]) -> Result<Counted, Refusal>
    ensures { counted result ≡ tallied length (body_for is_assert (family_of ipv6) kind m.now 4) }
{
    if is_assert {
        return count_asserts(ipv6, kind, m);
    }
    count_pairs(ipv6, kind, m)
}

// The entries that were counted, one after another.
fn copy_body<const IPV6: bool>(is_assert: bool, kind: Kind, m: &[u8], n: usize, d: &mut [u8])
    requires { HasCounted (body_for is_assert (family_of IPV6) kind m.now 4) n × (entry_size is_assert (family_of IPV6) * n ≤ length d.old) }
    ensures { d.new ≡ put d.old 0 (each (entries_for is_assert (family_of IPV6)).octets_of (value_of (body_for is_assert (family_of IPV6) kind m.now 4))) }
{
    match kind {
        Kind::Hello => {}
        Kind::Assert => copy_records::<IPV6>(is_assert, m, 4, n, d),
        Kind::Simple => copy_records::<IPV6>(is_assert, m, 8, n, d),
        Kind::Aggregated => copy_aggregated::<IPV6>(m, 8, d),
        Kind::NullRegister => copy_records::<IPV6>(is_assert, m, 4, n, d),
        Kind::RegisterStop => copy_records::<IPV6>(is_assert, m, 4, n, d),
    }
}

// The same by a family that is known at run time: the one place where it becomes a const parameter.
fn copy_entries(ipv6: bool, is_assert: bool, kind: Kind, m: &[u8], n: usize, d: &mut [u8])
    requires { HasCounted (body_for is_assert (family_of ipv6) kind m.now 4) n × (entry_size is_assert (family_of ipv6) * n ≤ length d.old) }
    ensures { d.new ≡ put d.old 0 (each (entries_for is_assert (family_of ipv6)).octets_of (value_of (body_for is_assert (family_of ipv6) kind m.now 4))) }
{
    if ipv6 {
        return copy_body::<true>(is_assert, kind, m, n, d);
    }
    copy_body::<false>(is_assert, kind, m, n, d)
}

// Reads a message of the assert kinds, or of the pair kinds.
fn read_of(
    ipv6: bool,
    path: Path,
    is_assert: bool,
    m: &[u8],
    d: &mut [u8],
) -> Result<Reading, Refusal>
    ensures answer { answered result ≡ (read_for is_assert (family_of ipv6) path m.now d.old).answer }
    ensures lent { d.new ≡ (read_for is_assert (family_of ipv6) path m.now d.old).lent }
{
    let kind = header(ipv6, path, m)?;
    let counted = count(ipv6, is_assert, kind, m)?;
    let n = counted.entries;
    if d.len() / entry_size(ipv6, is_assert) < n {
        return Err(Reason::NoRoom.at(0));
    }
    copy_entries(ipv6, is_assert, kind, m, n, d);
    Ok(Reading { kind, count: n })
}

// Reads a message of the assert kinds into assert entries.
pub fn read_asserts(
    family: AddressFamily,
    path: Path,
    m: &[u8],
    d: &mut [u8],
) -> Result<Reading, Refusal>
    ensures answer { answered result ≡ (read_asserts (family_named family) path m.now d.old).answer }
    ensures lent { d.new ≡ (read_asserts (family_named family) path m.now d.old).lent }
{
    read_of(is_ipv6(family), path, true, m, d)
}

// Reads a message of the pair kinds into pair entries.
pub fn read_pairs(
    family: AddressFamily,
    path: Path,
    m: &[u8],
    d: &mut [u8],
) -> Result<Reading, Refusal>
    ensures answer { answered result ≡ (read_pairs (family_named family) path m.now d.old).answer }
    ensures lent { d.new ≡ (read_pairs (family_named family) path m.now d.old).lent }
{
    read_of(is_ipv6(family), path, false, m, d)
}
