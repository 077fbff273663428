// What a packing call answered.
use format::{AddressFamily, Refusal};
use packing::Packing;
use printing::{decimal, number, refused, text};

// Lines of IPv6 begin with it.
pub(crate) fn family_name(out: &impl Print, family: AddressFamily) -> bool {
    match family {
        AddressFamily::Ipv4 => true,
        AddressFamily::Ipv6 => text(out, b"IPv6, "),
    }
}

// A message, and what follows it. A length of 0 is no message.
pub(crate) fn wrote(out: &impl Print, length: usize, taken: usize, after: &[u8]) -> bool {
    if length == 0 && taken == 0 {
        return text(out, b"no message") && text(out, after);
    }
    decimal(out, taken as u64)
        && number(out, b" taken, ", length as u64)
        && text(out, b" octets")
        && text(out, after)
}

pub(crate) fn answer(out: &impl Print, p: Result<Packing, Refusal>) -> bool {
    match p {
        Err(r) => refused(out, r, b"\n"),
        Ok(p) => wrote(out, p.length, p.taken, b"\n"),
    }
}
