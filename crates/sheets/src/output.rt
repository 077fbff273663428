// What the calls of a sheet and of a table answered, a line each.
use format::{AddressFamily, Refusal};
use neighbours::Change;
use printing::{named, number, refused, text};
use sections::Form;
use sheet::Counts;

pub(crate) fn form_name(out: &impl Print, form: Form) -> bool {
    match form {
        Form::Base => text(out, b"base form"),
        Form::Large => text(out, b"form 2"),
        Form::Ipv4 => text(out, b"form 3"),
        Form::Ipv6 => text(out, b"form 4"),
    }
}

pub(crate) fn family_name(out: &impl Print, family: AddressFamily) -> bool {
    match family {
        AddressFamily::Ipv4 => text(out, b"IPv4"),
        AddressFamily::Ipv6 => text(out, b"IPv6"),
    }
}

// The family that is not named.
pub(crate) fn other(family: AddressFamily) -> AddressFamily {
    match family {
        AddressFamily::Ipv4 => AddressFamily::Ipv6,
        AddressFamily::Ipv6 => AddressFamily::Ipv4,
    }
}

fn counts(out: &impl Print, c: Counts) -> bool {
    number(out, b"asserts ", c.asserts as u64)
        && number(out, b" pairs ", c.pairs as u64)
        && named(out, b" neighbours ", c.neighbours as u64)
}

// A sheet checked.
pub(crate) fn checked(out: &impl Print, family: AddressFamily, o: &[u8]) -> bool {
    found(out, sheet::check_sheet(family, o))
}

// A sheet checked as one of the other family.
pub(crate) fn other_checked(out: &impl Print, family: AddressFamily, o: &[u8]) -> bool {
    let f = other(family);
    text(out, b"  named ") && family_name(out, f) && text(out, b": ") && checked(out, f, o)
}

pub(crate) fn found(out: &impl Print, f: Result<Counts, Refusal>) -> bool {
    match f {
        Ok(n) => counts(out, n),
        Err(r) => refused(out, r, b"\n"),
    }
}

pub(crate) fn stored(out: &impl Print, w: Result<usize, Refusal>) -> bool {
    match w {
        Ok(n) => named(out, b"octets ", n as u64),
        Err(r) => refused(out, r, b"\n"),
    }
}

// What was done to a table; its line goes on.
pub(crate) fn done(out: &impl Print, change: Result<Change, Refusal>) -> bool {
    match change {
        Ok(Change::Replaced) => text(out, b"replaced"),
        Ok(Change::Appended) => text(out, b"appended"),
        Ok(Change::Forgotten) => text(out, b"forgotten"),
        Err(r) => refused(out, r, b""),
    }
}
