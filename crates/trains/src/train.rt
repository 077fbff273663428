// A train: what packing calls give from the first entry of the list until nothing is left. Each message is read into a
// second list, one after another, and the two lists are compared at the end. What is wrong is said where it is found.
ghost use Rattle.std.specs.Prelude.{◌≡◌, ◌+◌, ◌*◌, ◌≤◌, ◌<◌, length};

use crate::call::{pack, path};
use crate::output::{answer, family_name};
use crate::rule::{COUNT, place, room};
use format::{AddressFamily, Refusal};
use packing::Packing;
use printing::{decimal, front, in_common, named, number, refused, text};

// A message that was packed and read back. With 0 taken there is none: something was wrong, and has been said.
#[derive(Clone, Copy)]
struct Sent {
    length: usize,
    taken: usize,
}

fn nothing() -> Sent
    ensures { (result.length ≡ 0) × (result.taken ≡ 0) }
{
    Sent {
        length: 0,
        taken: 0,
    }
}

// How far the train came, where something is wrong.
fn came(out: &impl Print, start: usize) {
    decimal(out, start as u64);
    text(out, b" entries taken, then ");
}

// An answer that ends the train before its time.
fn stopped(out: &impl Print, start: usize, p: Result<Packing, Refusal>) -> Sent
    ensures { (result.length ≡ 0) × (result.taken ≡ 0) }
{
    came(out, start);
    text(out, b"packing: ");
    answer(out, p);
    nothing()
}

// Reads a message into the second list, at the place of the first entry that it took. Whether it has as many entries
// as were taken.
fn read_back(
    out: &impl Print,
    family: AddressFamily,
    d: &[u8],
    s: Sent,
    start: usize,
    back: &mut [u8],
) -> bool
    requires { (start < 1024) × (length back.old ≡ 45056) }
{
    let at = place(family, start);
    match reading::read_asserts(family, path(), front(d, s.length), &mut back[at..]) {
        Err(r) => {
            came(out, start);
            text(out, b"reading: ");
            refused(out, r, b"\n");
            false
        }
        Ok(read) => {
            if read.count == s.taken {
                return true;
            }
            came(out, start);
            decimal(out, s.taken as u64);
            number(out, b" more, but of these ", read.count as u64);
            text(out, b" read\n");
            false
        }
    }
}

// The next message of a train. No answer is believed: it takes an entry or more of those left, and fits the buffer.
fn next_message(
    out: &impl Print,
    family: AddressFamily,
    e: &[u8],
    start: usize,
    limit: usize,
    d: &mut [u8],
    back: &mut [u8],
) -> Sent
    requires { (start < 1024) × (length d.old ≡ 65536) × (length back.old ≡ 45056) }
    ensures { (start + result.taken ≤ 1024) × (result.length ≤ 65536) }
{
    let p = pack(family, e, start, limit, d);
    let Ok(packed) = p else {
        return stopped(out, start, p);
    };
    if packed.taken == 0 {
        return stopped(out, start, p);
    }
    if COUNT - start < packed.taken {
        return stopped(out, start, p);
    }
    if d.len() < packed.length {
        return stopped(out, start, p);
    }
    let s = Sent {
        length: packed.length,
        taken: packed.taken,
    };
    if read_back(out, family, d, s, start, back) {
        return s;
    }
    nothing()
}

// How far a train came.
#[derive(Clone, Copy)]
struct Total {
    messages: usize,
    octets: usize,
    taken: usize,
}

// The limit of the next call: the first passes one, the second the other, and so on by turns.
fn in_turn(one: usize, other: usize, messages: usize) -> usize {
    if messages % 2 == 0 {
        return one;
    }
    other
}

fn pack_all(
    out: &impl Print,
    family: AddressFamily,
    e: &[u8],
    one: usize,
    other: usize,
    d: &mut [u8],
    back: &mut [u8],
) -> Total
    requires { (length d.old ≡ 65536) × (length back.old ≡ 45056) }
{
    let mut messages = 0;
    let mut octets = 0;
    let mut taken = 0;
    // No `for` is plainer: a message takes as many entries as fit it.
    while taken < COUNT {
        let limit = in_turn(one, other, messages);
        let s = next_message(out, family, e, taken, limit, d, back);
        if s.taken == 0 {
            break;
        }
        messages += 1;
        octets += s.length;
        taken += s.taken;
    }
    Total {
        messages,
        octets,
        taken,
    }
}

// The entries that were read, held to the list that was packed.
fn compare(out: &impl Print, family: AddressFamily, packed: &[u8], read: &[u8]) -> bool {
    let at = in_common(packed, read);
    if at == packed.len() {
        return text(out, b", read back: the list\n");
    }
    number(
        out,
        b", read back: another list, from entry ",
        (at / place(family, 1)) as u64,
    ) && text(out, b" on\n")
}

// A train, with buffers of its own, so that nothing of another train can be read. One that is not whole has said why.
fn show(out: &impl Print, family: AddressFamily, list: &[u8], one: usize, other: usize) {
    let mut d = [0; 65536];
    let mut back = room();
    text(out, b": ");
    let t = pack_all(out, family, list, one, other, &mut d, &mut back);
    if t.taken == COUNT {
        number(out, b"messages ", t.messages as u64);
        number(out, b", octets ", t.octets as u64);
        compare(out, family, list, &back);
    }
}

fn run_at(out: &impl Print, family: AddressFamily, list: &[u8], limit: usize) {
    family_name(out, family);
    number(out, b"limit ", limit as u64);
    show(out, family, list, limit, limit);
}

fn run_by_turns(out: &impl Print, family: AddressFamily, list: &[u8], one: usize, other: usize) {
    family_name(out, family);
    number(out, b"limits ", one as u64);
    number(out, b" and ", other as u64);
    text(out, b" by turns");
    show(out, family, list, one, other);
}

fn name_list(out: &impl Print, family: AddressFamily, list: &[u8]) {
    family_name(out, family);
    number(out, b"the list: ", COUNT as u64);
    named(out, b" entries, sum ", checksum::sum(list) as u64);
}

pub(crate) fn ipv4(out: &impl Print, list: &[u8]) {
    let family = AddressFamily::Ipv4;
    name_list(out, family, list);
    run_at(out, family, list, 38);
    run_at(out, family, list, 49);
    run_at(out, family, list, 50);
    run_at(out, family, list, 0);
    run_at(out, family, list, 556);
    run_by_turns(out, family, list, 0, 556);
    run_at(out, family, list, 576);
    run_at(out, family, list, 1480);
    run_at(out, family, list, 9000);
    run_at(out, family, list, 65515);
}

pub(crate) fn ipv6(out: &impl Print, list: &[u8]) {
    let family = AddressFamily::Ipv6;
    name_list(out, family, list);
    run_at(out, family, list, 62);
    run_at(out, family, list, 68);
    run_at(out, family, list, 97);
    run_at(out, family, list, 98);
    run_at(out, family, list, 0);
    run_by_turns(out, family, list, 62, 1480);
    run_at(out, family, list, 576);
    run_at(out, family, list, 1280);
    run_at(out, family, list, 1480);
    run_at(out, family, list, 65515);
}
