// Tables of cases. A case is two lines of text: its name, and its octets in hexadecimal.
ghost use Rattle.std.specs.Prelude.{◌≡◌, ◌≤◌, ◌<◌, length};

use crate::part::front;

// How many octets a case's name has, how many octets the case has, and where the next case starts.
#[derive(Clone, Copy)]
pub struct Case {
    pub name: usize,
    pub length: usize,
    pub next: usize,
}

// The number of a hexadecimal digit; anything else is read as 0.
fn digit(x: u8) -> u8
    ensures { result < 16 }
{
    match x {
        b'0'..=b'9' => x - b'0',
        b'a'..=b'f' => x - b'a' + 10,
        _ => 0,
    }
}

// The first place from a place on where x stands, or where another octet does; the end where there is none.
fn first(s: &[u8], at: usize, x: u8, stands: bool) -> usize
    requires { at ≤ length s.now }
    ensures { (at ≤ result) × (result ≤ length s.now) }
{
    s[at..]
        .iter()
        .position(|c| (*c == x) == stands)
        .map_or(s.len(), |i| at + i)
}

// The octets of hexadecimal digits, two for each, put at the front of a buffer as far as they fit: how many. Spaces may stand between
// octets.
pub fn hexadecimal(s: &[u8], d: &mut [u8]) -> usize {
    let mut i = first(s, 0, b' ', false);
    for n in 0..d.len() {
        if s.len() - i < 2 {
            return n;
        }
        d[n] = 16 * digit(s[i]) + digit(s[i + 1]);
        i = first(s, i + 2, b' ', false);
    }
    d.len()
}

// The case at a place, with its octets put at the front of a buffer. The next case starts past it.
pub fn case_at(s: &[u8], at: usize, d: &mut [u8]) -> Case
    ensures { at < length s.now → at < result.next }
{
    if s.len() <= at {
        return Case {
            name: 0,
            length: 0,
            next: at,
        };
    }
    let name = first(s, at, b'\n', true);
    if name == s.len() {
        return Case {
            name: name - at,
            length: 0,
            next: name,
        };
    }
    let start = name + 1;
    let end = first(s, start, b'\n', true);
    Case {
        name: name - at,
        length: hexadecimal(&s[start..end], d),
        next: end + 1,
    }
}

// Each case of a table in turn: its name, and its octets, put at the front of a buffer. What is called writes to a stream, so no contract says what it did.
pub fn each_case<F: FnMut(&[u8], &[u8])>(table: &[u8], d: &mut [u8], mut each: F)
    requires { F.IsAlwaysCallable each }
{
    let mut at = 0;
    // No `for` is plainer: the step is a case's own.
    while at < table.len() {
        let c = case_at(table, at, d);
        each(front(&table[at..], c.name), front(d, c.length));
        at = c.next;
    }
}
