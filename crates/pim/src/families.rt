// The family that C names by a number.
ghost use Rattle.std.specs.Prelude.{◌≡◌};
ghost use Rattle.format.specs.declared.Reason.TheVariants.{BadKind};
ghost use Rattle.pim.specs.Families.{family_numbered};

use format::{AddressFamily, Reason, Refusal};

// The numbers are those that stand in messages and entries.
pub(crate) fn family_numbered(number: u8) -> Option<AddressFamily>
    ensures { result ≡ family_numbered number }
{
    match number {
        1 => Some(AddressFamily::Ipv4),
        2 => Some(AddressFamily::Ipv6),
        _ => None,
    }
}

// What every call refuses where the number is that of neither.
pub(crate) fn no_family() -> Refusal
    ensures { result ≡ record { reason = BadKind; place = 0 } }
{
    Reason::BadKind.at(0)
}
