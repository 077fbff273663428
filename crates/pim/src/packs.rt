// Packing messages.
ghost use Rattle.std.specs.Prelude.{◌≡◌};
ghost use Rattle.format.specs.Family.{family_named};
ghost use Rattle.format.specs.Packing.{plain, simple, aggregated, null_register, register_stop, packing, choice};
ghost use Rattle.packing.specs.Answers.{packed, chosen_by};
ghost use Rattle.pim.specs.Answers.{pack_answer, choice_answer};
ghost use Rattle.pim.specs.Families.{family_numbered, of_family, no_family};

use crate::answers::{Refusal, accepted};
use crate::families::{family_numbered, no_family};
use format::Path;
use packing::{Choice, Packing};

#[repr(C)]
#[derive(Clone, Copy)]
pub struct PackAnswer {
    pub refusal: Refusal,
    pub length: usize,
    pub taken: usize,
}

#[repr(C)]
#[derive(Clone, Copy)]
pub struct ChoiceAnswer {
    pub refusal: Refusal,
    pub length: usize,
    pub taken: usize,
    pub aggregated: bool,
}

fn pack_answer(p: Result<Packing, format::Refusal>) -> PackAnswer
    ensures { result ≡ pack_answer (packed p) }
{
    match p {
        Ok(p) => PackAnswer {
            refusal: accepted(),
            length: p.length,
            taken: p.taken,
        },
        Err(r) => PackAnswer {
            refusal: Refusal::from(r),
            length: 0,
            taken: 0,
        },
    }
}

// A plain assert: one entry.
#[unsafe(no_mangle)]
pub extern "C" fn pim_pack_assert(
    family: u8,
    path: Path,
    e: &[u8],
    start: usize,
    limit: usize,
    d: &mut [u8],
) -> PackAnswer
    ensures answer { result ≡ pack_answer (of_family (family_numbered family) (λ a. (packing (plain (family_named a)) path e.now start limit d.old).answer) no_family) }
    ensures buffer { d.new ≡ of_family (family_numbered family) (λ a. (packing (plain (family_named a)) path e.now start limit d.old).buffer) d.old }
{
    match family_numbered(family) {
        Some(family) => pack_answer(packing::pack_assert(family, path, e, start, limit, d)),
        None => pack_answer(Err(no_family())),
    }
}

// A packed simple assert.
#[unsafe(no_mangle)]
pub extern "C" fn pim_pack_simple(
    family: u8,
    path: Path,
    e: &[u8],
    start: usize,
    limit: usize,
    d: &mut [u8],
) -> PackAnswer
    ensures answer { result ≡ pack_answer (of_family (family_numbered family) (λ a. (packing (simple (family_named a)) path e.now start limit d.old).answer) no_family) }
    ensures buffer { d.new ≡ of_family (family_numbered family) (λ a. (packing (simple (family_named a)) path e.now start limit d.old).buffer) d.old }
{
    match family_numbered(family) {
        Some(family) => pack_answer(packing::pack_simple(family, path, e, start, limit, d)),
        None => pack_answer(Err(no_family())),
    }
}

// A packed aggregated assert.
#[unsafe(no_mangle)]
pub extern "C" fn pim_pack_aggregated(
    family: u8,
    path: Path,
    e: &[u8],
    start: usize,
    limit: usize,
    d: &mut [u8],
) -> PackAnswer
    ensures answer { result ≡ pack_answer (of_family (family_numbered family) (λ a. (packing (aggregated (family_named a)) path e.now start limit d.old).answer) no_family) }
    ensures buffer { d.new ≡ of_family (family_numbered family) (λ a. (packing (aggregated (family_named a)) path e.now start limit d.old).buffer) d.old }
{
    match family_numbered(family) {
        Some(family) => pack_answer(packing::pack_aggregated(family, path, e, start, limit, d)),
        None => pack_answer(Err(no_family())),
    }
}

// A packed Null-Register.
#[unsafe(no_mangle)]
pub extern "C" fn pim_pack_null_register(
    family: u8,
    path: Path,
    e: &[u8],
    start: usize,
    limit: usize,
    d: &mut [u8],
) -> PackAnswer
    ensures answer { result ≡ pack_answer (of_family (family_numbered family) (λ a. (packing (null_register (family_named a)) path e.now start limit d.old).answer) no_family) }
    ensures buffer { d.new ≡ of_family (family_numbered family) (λ a. (packing (null_register (family_named a)) path e.now start limit d.old).buffer) d.old }
{
    match family_numbered(family) {
        Some(family) => pack_answer(packing::pack_null_register(family, path, e, start, limit, d)),
        None => pack_answer(Err(no_family())),
    }
}

// A packed Register-Stop.
#[unsafe(no_mangle)]
pub extern "C" fn pim_pack_register_stop(
    family: u8,
    path: Path,
    e: &[u8],
    start: usize,
    limit: usize,
    d: &mut [u8],
) -> PackAnswer
    ensures answer { result ≡ pack_answer (of_family (family_numbered family) (λ a. (packing (register_stop (family_named a)) path e.now start limit d.old).answer) no_family) }
    ensures buffer { d.new ≡ of_family (family_numbered family) (λ a. (packing (register_stop (family_named a)) path e.now start limit d.old).buffer) d.old }
{
    match family_numbered(family) {
        Some(family) => pack_answer(packing::pack_register_stop(family, path, e, start, limit, d)),
        None => pack_answer(Err(no_family())),
    }
}

fn choice_answer(c: Result<Choice, format::Refusal>) -> ChoiceAnswer
    ensures { result ≡ choice_answer (chosen_by c) }
{
    match c {
        Ok(c) => ChoiceAnswer {
            refusal: accepted(),
            length: c.length,
            taken: c.taken,
            aggregated: c.aggregated,
        },
        Err(r) => ChoiceAnswer {
            refusal: Refusal::from(r),
            length: 0,
            taken: 0,
            aggregated: false,
        },
    }
}

// Both packed assert forms, each into a buffer of its own, and the one that is chosen.
#[unsafe(no_mangle)]
pub extern "C" fn pim_pack_both(
    family: u8,
    path: Path,
    e: &[u8],
    start: usize,
    limit: usize,
    simple: &mut [u8],
    aggregated: &mut [u8],
) -> ChoiceAnswer
    ensures answer { result ≡ choice_answer (of_family (family_numbered family) (λ a. (choice (family_named a) path e.now start limit simple.old aggregated.old).answer) no_family) }
    ensures simple { simple.new ≡ of_family (family_numbered family) (λ a. (choice (family_named a) path e.now start limit simple.old aggregated.old).simple_buffer) simple.old }
    ensures aggregated { aggregated.new ≡ of_family (family_numbered family) (λ a. (choice (family_named a) path e.now start limit simple.old aggregated.old).aggregated_buffer) aggregated.old }
{
    match family_numbered(family) {
        Some(family) => choice_answer(packing::pack_both(
            family, path, e, start, limit, simple, aggregated,
        )),
        None => choice_answer(Err(no_family())),
    }
}
