// Reading messages, and writing Hellos.
ghost use Rattle.std.specs.Prelude.{◌≡◌, length, []};
ghost use Rattle.format.specs.Family.{family_named};
ghost use Rattle.format.specs.Header.{header, body};
ghost use Rattle.format.specs.Reader.{bad};
ghost use Rattle.format.specs.Record.{record_at};
ghost use Rattle.format.specs.Reading.{read_asserts, read_pairs};
ghost use Rattle.format.specs.Values.{kind_named};
ghost use Rattle.headers.specs.Answers.{headed};
ghost use Rattle.fields.specs.Answers.{single};
ghost use Rattle.reading.specs.Calls.{answered};
ghost use Rattle.hello.specs.Hello.{read_hello, write_hello};
ghost use Rattle.hello.specs.Answers.{hello_by, told, Unannounced};
ghost use Rattle.pim.specs.Answers.{header_answer, kind_of, record_answer, read_answer, hello_answer, length_answer};
ghost use Rattle.pim.specs.Families.{family_numbered, of_family, no_family};

use crate::answers::{LengthAnswer, Refusal, accepted, length_answer};
use crate::families::{family_numbered, no_family};
use format::{Address, AddressFamily, Kind, NoKind, Path, Reason, Record};
use hello::Hello;
use reading::{Reading, Single};

#[repr(C)]
#[derive(Clone, Copy)]
pub struct HeaderAnswer {
    pub refusal: Refusal,
    pub kind: u8,
}

#[repr(C)]
#[derive(Clone, Copy)]
pub struct RecordAnswer {
    pub refusal: Refusal,
    pub next: usize,
    pub group: Address,
    pub source: Address,
    pub r_preference: u32,
    pub metric: u32,
    pub is_pair: bool,
}

#[repr(C)]
#[derive(Clone, Copy)]
pub struct ReadAnswer {
    pub refusal: Refusal,
    pub count: usize,
    pub kind: u8,
}

#[repr(C)]
#[derive(Clone, Copy)]
pub struct HelloAnswer {
    pub refusal: Refusal,
    pub hello: Hello,
}

fn header_answer(h: Result<Kind, format::Refusal>) -> HeaderAnswer
    ensures { result ≡ header_answer (headed h) }
{
    match h {
        Ok(kind) => HeaderAnswer {
            refusal: accepted(),
            kind: u8::from(kind),
        },
        Err(r) => HeaderAnswer {
            refusal: Refusal::from(r),
            kind: 0,
        },
    }
}

// The kind of a message.
#[unsafe(no_mangle)]
pub extern "C" fn pim_header(family: u8, path: Path, m: &[u8]) -> HeaderAnswer
    ensures { result ≡ header_answer (of_family (family_numbered family) (λ a. header (family_named a) path m.now) no_family) }
{
    match family_numbered(family) {
        Some(family) => header_answer(reading::header(family, path, m)),
        None => header_answer(Err(no_family())),
    }
}

// How many octets the body has, which begins at octet 4.
#[unsafe(no_mangle)]
pub extern "C" fn pim_body(family: u8, path: Path, m: &[u8]) -> usize
    ensures { result ≡ length (of_family (family_numbered family) (λ a. body (family_named a) path m.now) []) }
{
    match family_numbered(family) {
        Some(family) => reading::body(family, path, m).len(),
        None => 0,
    }
}

fn got(s: Single) -> RecordAnswer
    ensures { result ≡ record_answer (single (Ok s)) }
{
    match s.record {
        Record::Assert(e) => RecordAnswer {
            refusal: accepted(),
            next: s.next,
            group: e.group,
            source: e.source,
            r_preference: e.r_preference,
            metric: e.metric,
            is_pair: false,
        },
        Record::Pair(e) => RecordAnswer {
            refusal: accepted(),
            next: s.next,
            group: e.group,
            source: e.source,
            r_preference: 0,
            metric: 0,
            is_pair: true,
        },
    }
}

fn read_answer(r: Result<Reading, format::Refusal>) -> ReadAnswer
    ensures { result ≡ read_answer (answered r) }
{
    match r {
        Ok(read) => ReadAnswer {
            refusal: accepted(),
            count: read.count,
            kind: u8::from(read.kind),
        },
        Err(r) => ReadAnswer {
            refusal: Refusal::from(r),
            count: 0,
            kind: 0,
        },
    }
}

// The entries of a message of the assert kinds.
#[unsafe(no_mangle)]
pub extern "C" fn pim_read_asserts(
    family: u8,
    path: Path,
    m: &[u8],
    entries: &mut [u8],
) -> ReadAnswer
    ensures answer { result ≡ read_answer (of_family (family_numbered family) (λ a. (read_asserts (family_named a) path m.now entries.old).answer) no_family) }
    ensures entries { entries.new ≡ of_family (family_numbered family) (λ a. (read_asserts (family_named a) path m.now entries.old).lent) entries.old }
{
    match family_numbered(family) {
        Some(family) => read_answer(reading::read_asserts(family, path, m, entries)),
        None => read_answer(Err(no_family())),
    }
}

// The entries of a message of the pair kinds.
#[unsafe(no_mangle)]
pub extern "C" fn pim_read_pairs(family: u8, path: Path, m: &[u8], entries: &mut [u8]) -> ReadAnswer
    ensures answer { result ≡ read_answer (of_family (family_numbered family) (λ a. (read_pairs (family_named a) path m.now entries.old).answer) no_family) }
    ensures entries { entries.new ≡ of_family (family_numbered family) (λ a. (read_pairs (family_named a) path m.now entries.old).lent) entries.old }
{
    match family_numbered(family) {
        Some(family) => read_answer(reading::read_pairs(family, path, m, entries)),
        None => read_answer(Err(no_family())),
    }
}

// A Hello as it is handed over: nothing is said where reading refuses.
fn hello_answer(h: Result<Hello, format::Refusal>) -> HelloAnswer
    requires { Unannounced h }
    ensures { result ≡ hello_answer (told h) }
{
    match h {
        Ok(hello) => HelloAnswer {
            refusal: accepted(),
            hello,
        },
        Err(r) => HelloAnswer {
            refusal: Refusal::from(r),
            hello: Hello {
                holdtime: 0,
                has_priority: false,
                priority: 0,
                packing: false,
            },
        },
    }
}

// What a Hello says.
#[unsafe(no_mangle)]
pub extern "C" fn pim_read_hello(family: u8, path: Path, m: &[u8]) -> HelloAnswer
    ensures { result ≡ hello_answer (of_family (family_numbered family) (λ a. read_hello (family_named a) path m.now) no_family) }
{
    match family_numbered(family) {
        Some(family) => hello_answer(hello::read_hello(family, path, m)),
        None => hello_answer(Err(no_family())),
    }
}

// The Hello that says this.
#[unsafe(no_mangle)]
pub extern "C" fn pim_write_hello(family: u8, path: Path, said: Hello, d: &mut [u8]) -> LengthAnswer
    ensures answer { result ≡ length_answer (of_family (family_numbered family) (λ a. (write_hello (family_named a) path (hello_by said) d.old).answer) no_family) }
    ensures buffer { d.new ≡ of_family (family_numbered family) (λ a. (write_hello (family_named a) path (hello_by said) d.old).buffer) d.old }
{
    match family_numbered(family) {
        Some(family) => length_answer(hello::write_hello(family, path, said, d)),
        None => length_answer(Err(no_family())),
    }
}

fn no_record(r: format::Refusal) -> RecordAnswer
    ensures { result ≡ record_answer (single (Err r)) }
{
    RecordAnswer {
        refusal: Refusal::from(r),
        next: 0,
        group: Address { high: 0, low: 0 },
        source: Address { high: 0, low: 0 },
        r_preference: 0,
        metric: 0,
        is_pair: false,
    }
}

fn record_answer(s: Result<Single, format::Refusal>) -> RecordAnswer
    ensures { result ≡ record_answer (single s) }
{
    match s {
        Ok(s) => got(s),
        Err(r) => no_record(r),
    }
}

// The record of a kind at a place; 4 for a number that names no kind.
fn of_kind(family: AddressFamily, kind: u8, o: &[u8], at: usize) -> RecordAnswer
    ensures { result ≡ record_answer (kind_of (kind_named kind) (λ k. record_at (family_named family) k o.now at)) }
{
    match Kind::try_from(kind) {
        Ok(kind) => record_answer(reading::read_record(family, kind, o, at)),
        Err(NoKind) => no_record(Reason::BadKind.at(0)),
    }
}

// The same in the family that a number names.
#[unsafe(no_mangle)]
pub extern "C" fn pim_read_record(family: u8, kind: u8, o: &[u8], at: usize) -> RecordAnswer
    ensures { result ≡ record_answer (of_family (family_numbered family) (λ a. kind_of (kind_named kind) (λ k. record_at (family_named a) k o.now at)) (bad 4 0)) }
{
    match family_numbered(family) {
        Some(family) => of_kind(family, kind, o, at),
        None => no_record(no_family()),
    }
}
