// The five packing calls, by one function over the kind.
ghost use Rattle.std.specs.Prelude.{◌≡◌, true, length};
ghost use Rattle.format.specs.Family.{is_ipv6, family_named};
ghost use Rattle.format.specs.Packing.{plain, simple, aggregated, null_register, register_stop, taken, pack, packing};
ghost use Rattle.packing.specs.Kinds.{form_for, is_packed};
ghost use Rattle.packing.specs.Answers.{packed};

use crate::limit::asked;
use crate::most::write_most;
use format::{AddressFamily, Kind, Path, Refusal, is_ipv6};

// What a packing call wrote: one message of so many octets, of so many entries.
#[derive(Clone, Copy)]
pub struct Packing {
    pub length: usize,
    pub taken: usize,
}

// Packs a message of a kind.
fn pack(
    family: AddressFamily,
    path: Path,
    kind: Kind,
    e: &[u8],
    start: usize,
    limit: usize,
    d: &mut [u8],
) -> Result<Packing, Refusal>
    requires { is_packed kind ≡ true }
    ensures answer { packed result ≡ (packing (form_for (is_ipv6 family) kind) path e.now start limit d.old).answer }
    ensures buffer { d.new ≡ (packing (form_for (is_ipv6 family) kind) path e.now start limit d.old).buffer }
{
    let ipv6 = is_ipv6(family);
    let l = asked(ipv6, kind, e, start, limit, d.len())?;
    let w = write_most(ipv6, path, kind, e, start, l, d);
    Ok(Packing {
        length: w.next,
        taken: w.taken,
    })
}

// A plain assert: one entry.
pub fn pack_assert(
    family: AddressFamily,
    path: Path,
    e: &[u8],
    start: usize,
    limit: usize,
    d: &mut [u8],
) -> Result<Packing, Refusal>
    ensures answer { packed result ≡ (packing (plain (family_named family)) path e.now start limit d.old).answer }
    ensures buffer { d.new ≡ (packing (plain (family_named family)) path e.now start limit d.old).buffer }
{
    pack(family, path, Kind::Assert, e, start, limit, d)
}

// A packed simple assert.
pub fn pack_simple(
    family: AddressFamily,
    path: Path,
    e: &[u8],
    start: usize,
    limit: usize,
    d: &mut [u8],
) -> Result<Packing, Refusal>
    ensures answer { packed result ≡ (packing (simple (family_named family)) path e.now start limit d.old).answer }
    ensures buffer { d.new ≡ (packing (simple (family_named family)) path e.now start limit d.old).buffer }
{
    pack(family, path, Kind::Simple, e, start, limit, d)
}

// A packed aggregated assert.
pub fn pack_aggregated(
    family: AddressFamily,
    path: Path,
    e: &[u8],
    start: usize,
    limit: usize,
    d: &mut [u8],
) -> Result<Packing, Refusal>
    ensures answer { packed result ≡ (packing (aggregated (family_named family)) path e.now start limit d.old).answer }
    ensures buffer { d.new ≡ (packing (aggregated (family_named family)) path e.now start limit d.old).buffer }
{
    pack(family, path, Kind::Aggregated, e, start, limit, d)
}

// A packed null-register.
pub fn pack_null_register(
    family: AddressFamily,
    path: Path,
    e: &[u8],
    start: usize,
    limit: usize,
    d: &mut [u8],
) -> Result<Packing, Refusal>
    ensures answer { packed result ≡ (packing (null_register (family_named family)) path e.now start limit d.old).answer }
    ensures buffer { d.new ≡ (packing (null_register (family_named family)) path e.now start limit d.old).buffer }
{
    pack(family, path, Kind::NullRegister, e, start, limit, d)
}

// A packed register-stop.
pub fn pack_register_stop(
    family: AddressFamily,
    path: Path,
    e: &[u8],
    start: usize,
    limit: usize,
    d: &mut [u8],
) -> Result<Packing, Refusal>
    ensures answer { packed result ≡ (packing (register_stop (family_named family)) path e.now start limit d.old).answer }
    ensures buffer { d.new ≡ (packing (register_stop (family_named family)) path e.now start limit d.old).buffer }
{
    pack(family, path, Kind::RegisterStop, e, start, limit, d)
}
