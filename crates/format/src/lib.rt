// The vocabulary that the crates above share: the kinds of message and the reasons for a refusal, each with its number,
// limits, the families of addresses, an address and a path of two, the two records and the R bit. What each means in
// octets is in specs/, and so are the theorems' statements; there is hardly any code.
#![tactic(auto)]

ghost use Rattle.std.specs.Prelude.{◌≡◌};
ghost use Rattle.records.specs.Records.{r_bit};
ghost use Rattle.format.specs.Family.{is_ipv6};
ghost use Rattle.format.specs.Packing.{usual_limit};
ghost use Rattle.format.specs.Path.{nowhere};
ghost use Rattle.format.specs.Outcome.{reason_number};
ghost use Rattle.format.specs.Values.{kind_number, kind_named, named_by};

use std::error::Error;
use std::fmt;

// The six kinds of message, in 01's order.
#[derive(Clone, Copy, Debug, PartialEq, Eq)]
pub enum Kind {
    Hello,
    Assert,
    Simple,
    Aggregated,
    NullRegister,
    RegisterStop,
}

// A number that names no kind.
#[derive(Clone, Copy, Debug, PartialEq, Eq)]
pub struct NoKind;

// A kind's name in a listing.
impl fmt::Display for Kind {
    fn fmt<W: fmt::Write>(&self, f: &mut fmt::Formatter<W>) -> fmt::Result {
        f.write_str(match self {
            Kind::Hello => "hello",
            Kind::Assert => "assert",
            Kind::Simple => "simple",
            Kind::Aggregated => "aggregated",
            Kind::NullRegister => "null-register",
            Kind::RegisterStop => "register-stop",
        })
    }
}

// The number that names a kind.
impl From<Kind> for u8 {
    ghost from_gives = { λ kind n. n ≡ kind_number kind };

    #[tactic(auto, unfolding(crate::specs::Values::kind_number))]
    fn from(kind: Kind) -> u8 {
        match kind {
            Kind::Hello => 0,
            Kind::Assert => 1,
            Kind::Simple => 2,
            Kind::Aggregated => 3,
            Kind::NullRegister => 4,
            Kind::RegisterStop => 5,
        }
    }
}

impl TryFrom<u8> for Kind {
    type Error = NoKind;

    ghost try_from_gives = { λ n result. named_by result ≡ kind_named n };

    #[tactic(auto, unfolding(crate::specs::Values::named_by, crate::specs::Values::kind_named, crate::specs::Values::named, crate::specs::Values::kinds, crate::specs::Values::kind_number))]
    fn try_from(n: u8) -> Result<Kind, NoKind> {
        match n {
            0 => Ok(Kind::Hello),
            1 => Ok(Kind::Assert),
            2 => Ok(Kind::Simple),
            3 => Ok(Kind::Aggregated),
            4 => Ok(Kind::NullRegister),
            5 => Ok(Kind::RegisterStop),
            _ => Err(NoKind),
        }
    }
}

// Limits run from the least to the greatest.
pub const LEAST_LIMIT: usize = 38;

pub const GREATEST_LIMIT: usize = 65515;

// What limit 0 is read as: a function, so that a promise holds it to the definition.
pub fn usual_limit() -> usize
    ensures { result ≡ usual_limit }
{
    556
}

// Why a call refuses: the rows of 01's table, in their order.
#[derive(Clone, Copy, Debug, PartialEq, Eq)]
pub enum Reason {
    BadLength,
    BadVersion,
    BadChecksum,
    BadKind,
    NoRecord,
    Cut,
    BadAddress,
    NoRoom,
    BadLimit,
    BadList,
    TableFull,
    Absent,
    BadOption,
    BadSheet,
}

// The row of the table.
impl From<Reason> for u8 {
    ghost from_gives = { λ reason n. n ≡ reason_number reason };

    fn from(reason: Reason) -> u8 {
        match reason {
            Reason::BadLength => 1,
            Reason::BadVersion => 2,
            Reason::BadChecksum => 3,
            Reason::BadKind => 4,
            Reason::NoRecord => 5,
            Reason::Cut => 6,
            Reason::BadAddress => 7,
            Reason::NoRoom => 8,
            Reason::BadLimit => 9,
            Reason::BadList => 10,
            Reason::TableFull => 11,
            Reason::Absent => 12,
            Reason::BadOption => 13,
            Reason::BadSheet => 14,
        }
    }
}

impl Reason {
    // The refusal for this reason, with the place at fault.
    pub fn at(self, place: usize) -> Refusal
        ensures { result ≡ record { reason = self; place = place } }
    {
        Refusal {
            reason: self,
            place,
        }
    }
}

// In a few words: the table of docs/FORMAT.md, to the letter.
impl fmt::Display for Reason {
    fn fmt<W: fmt::Write>(&self, f: &mut fmt::Formatter<W>) -> fmt::Result {
        f.write_str(match self {
            Reason::BadLength => "length not 4 to 65,515 octets",
            Reason::BadVersion => "version not 2",
            Reason::BadChecksum => "checksum wrong",
            Reason::BadKind => "kind not read here",
            Reason::NoRecord => "Zero not 0, or no record",
            Reason::Cut => "cut short, or a number of records is 0",
            Reason::BadAddress => "address not allowed",
            Reason::NoRoom => "too little room",
            Reason::BadLimit => "limit not allowed",
            Reason::BadList => "list not whole, or start past its end",
            Reason::TableFull => "table full",
            Reason::Absent => "no such neighbour",
            Reason::BadOption => "option or attribute against its rule",
            Reason::BadSheet => "sheet or table against its rule",
        })
    }
}

// Why a call refuses, and the place at fault.
#[derive(Clone, Copy, Debug, PartialEq, Eq)]
pub struct Refusal {
    pub reason: Reason,
    pub place: usize,
}

impl fmt::Display for Refusal {
    fn fmt<W: fmt::Write>(&self, f: &mut fmt::Formatter<W>) -> fmt::Result {
        write!(f, "refused {} at {}", u8::from(self.reason), self.place)
    }
}

impl Error for Refusal {}

// The family that a caller names.
#[derive(Clone, Copy, Debug, PartialEq, Eq)]
pub enum AddressFamily {
    Ipv4,
    Ipv6,
}

// Code below the public calls names it by a bool: a compiler sees through one.
pub fn is_ipv6(family: AddressFamily) -> bool
    ensures { result ≡ is_ipv6 family }
{
    match family {
        AddressFamily::Ipv4 => false,
        AddressFamily::Ipv6 => true,
    }
}

// An address as a number, in two halves; an IPv4 address has 0 in the high one. The high one comes first, so that addresses compare as their numbers do.
#[repr(C)]
#[derive(Clone, Copy, Debug, PartialEq, Eq, PartialOrd, Ord)]
pub struct Address {
    pub high: u64,
    pub low: u64,
}

// Where a datagram goes: an IPv6 message is summed with both addresses, an IPv4 message with neither.
#[repr(C)]
#[derive(Clone, Copy, Debug, PartialEq, Eq)]
pub struct Path {
    pub source: Address,
    pub destination: Address,
}

// A path for callers that have none: an IPv4 message is not summed with it.
pub fn nowhere() -> Path
    ensures { result ≡ nowhere }
{
    Path {
        source: Address { high: 0, low: 0 },
        destination: Address { high: 0, low: 0 },
    }
}

// R, the highest bit of the word that it has with the metric preference.
pub fn r_bit(word: u32) -> bool
    ensures { result ≡ r_bit word }
{
    0x8000_0000 <= word
}

// An assert record: group, source, the R bit with the 31-bit metric preference, metric.
#[derive(Clone, Copy, Debug, PartialEq, Eq)]
pub struct AssertFields {
    pub group: Address,
    pub source: Address,
    pub r_preference: u32,
    pub metric: u32,
}

// A pair of a packed Null-Register or Register-Stop message.
#[derive(Clone, Copy, Debug, PartialEq, Eq)]
pub struct PairFields {
    pub group: Address,
    pub source: Address,
}

// A record read singly: "one of two cases, an assert with its four fields or a pair with its two".
#[derive(Clone, Copy, Debug, PartialEq, Eq)]
pub enum Record {
    Assert(AssertFields),
    Pair(PairFields),
}
