// The Internet checksum: the one's complement sum of the 16-bit words of a message, big-endian, and its complement.
// The carry out of 16 bits is added back after each word.
#![tactic(auto)]

ghost use Rattle.std.specs.Prelude.{◌≡◌, ◌+◌, ◌*◌, ◌≤◌, length, drop};
ghost use Rattle.octets.specs.Octets.{be};
ghost use Rattle.checksum.specs.Sum.{words, sum_from, checksum_from, holds_from};
ghost use Rattle.checksum.specs.Sum.{add as add_of, sum as sum_of, checksum as checksum_of, holds as holds_of};

fn word(high: u8, low: u8) -> u16
    ensures { result ≡ high * 256 + low }
{
    (high as u16) * 256 + (low as u16)
}

// One word onto a sum. Where a + b is above 65535, its carry is added back: a + b - 65536 + 1 is a - (65535 - b).
pub fn add(a: u16, b: u16) -> u16
    ensures { result ≡ add_of a b }
{
    if a <= 65535 - b {
        a + b
    } else {
        a - (65535 - b)
    }
}

// The words from octet `from` on, summed onto `start`. After each word `acc` is at most 0xFFFF, and the sum of the words so far.
fn sum_from(s: &[u8], from: usize, start: u16) -> u16
    requires { from ≤ length s.now }
    ensures { result ≡ sum_from start (words (drop from s.now)) }
{
    // Over pairs the compiler knows the number of turns, and takes two at a time.
    let (pairs, odd) = s[from..].as_chunks::<2>();
    let mut acc = start;
    for [high, low] in pairs {
        acc = add(acc, word(*high, *low));
    }
    // An odd last octet is the high half of its word.
    if let [last] = odd {
        add(acc, word(*last, 0))
    } else {
        acc
    }
}

// The words of octets, summed onto an earlier sum.
pub fn sum_after(start: u16, s: &[u8]) -> u16
    ensures { result ≡ sum_from start (words s.now) }
{
    sum_from(s, 0, start)
}

// The words of a number of eight octets, summed onto an earlier sum.
pub fn sum_number64(start: u16, n: u64) -> u16
    ensures { result ≡ sum_from start (words (be 8 n)) }
{
    let a = add(start, (n / 281474976710656) as u16);
    let b = add(a, (n / 4294967296 % 65536) as u16);
    let c = add(b, (n / 65536 % 65536) as u16);
    add(c, (n % 65536) as u16)
}

// The one's complement sum of all words.
pub fn sum(s: &[u8]) -> u16
    ensures { result ≡ sum_of s.now }
{
    sum_from(s, 0, 0)
}

// What the checksum field of a message holds, after an earlier sum. The field itself, octets 2 and 3, counts as 0: its
// word is skipped.
pub fn checksum_after(start: u16, s: &[u8]) -> u16
    ensures { result ≡ checksum_from start s.now }
{
    if s.len() < 2 {
        return 65535 - sum_from(s, 0, start);
    }
    let first = add(start, word(s[0], s[1]));
    if s.len() < 4 {
        return 65535 - first;
    }
    65535 - sum_from(s, 4, first)
}

// The same with nothing summed before.
pub fn checksum(s: &[u8]) -> u16
    ensures { result ≡ checksum_of s.now }
{
    checksum_after(0, s)
}

// The sum of a message with its checksum in place is 0xFFFF, after an earlier sum.
pub fn holds_after(start: u16, s: &[u8]) -> bool
    ensures { result ≡ holds_from start s.now }
{
    sum_from(s, 0, start) == 65535
}

// The same with nothing summed before.
pub fn holds(s: &[u8]) -> bool
    ensures { result ≡ holds_of s.now }
{
    holds_after(0, s)
}
