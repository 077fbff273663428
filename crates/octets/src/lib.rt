// Field readers and writers at any place of a slice: unsigned numbers, big-endian, and octets that are skipped or copied.
// Each is total: a place from which the field does not fit is answered, and never reached. `read`, `write` and `skip` then
// answer None; `number`, `whole` and `copy` are for callers who know that the octets are there.
#![tactic(auto)]

ghost use Rattle.std.specs.Prelude.{◌≡◌, ◌-◌, ◌<◌, ◌≤◌, ◌^◌, ℕ, length};
ghost use Rattle.octets.specs.Octets.{number_at, whole_at, value, be, copied};
ghost use Rattle.octets.specs.Reader.{number};
ghost use Rattle.octets.specs.Field.{field_at, skipped_at, ignored, written_at, written, fitted};
ghost use Rattle.octets.specs.Numbers.{few1, few2, few4, few8};

// An unsigned number, as a message has it in so many octets.
pub trait Unsigned: Copy {
    ghost SIZE: { ℕ };

    // Which number a value is.
    ghost number: { Self → ℕ };

    const SIZE: usize;

    fn of_octets(o: &[u8]) -> Self
        requires { length o.now ≡ SIZE }
        ensures { number result ≡ value o.now };

    fn of_wide(n: u64) -> Self
        requires { n < 256 ^ SIZE }
        ensures { number result ≡ n };

    // Its octets, over so many others.
    fn put(self, d: &mut [u8])
        requires { length d.old ≡ SIZE }
        ensures { d.new ≡ be SIZE (number self) };

    // At least one octet, and no more than are widened.
    ghost few: { (0 < SIZE) × (SIZE ≤ 8) };
}

impl Unsigned for u8 {
    ghost SIZE = { 1 };

    ghost number = { λ n. n };

    const SIZE: usize = 1;

    fn of_octets(o: &[u8]) -> u8 {
        o[0]
    }

    fn of_wide(n: u64) -> u8 {
        n as u8
    }

    fn put(self, d: &mut [u8]) {
        d[0] = self;
    }

    ghost few = { few1 };
}

impl Unsigned for u16 {
    ghost SIZE = { 2 };

    ghost number = { λ n. n };

    const SIZE: usize = 2;

    fn of_octets(o: &[u8]) -> u16 {
        (o[0] as u16) * 256 + (o[1] as u16)
    }

    fn of_wide(n: u64) -> u16 {
        n as u16
    }

    fn put(self, d: &mut [u8]) {
        d[0] = (self / 256) as u8;
        d[1] = (self % 256) as u8;
    }

    ghost few = { few2 };
}

impl Unsigned for u32 {
    ghost SIZE = { 4 };

    ghost number = { λ n. n };

    const SIZE: usize = 4;

    fn of_octets(o: &[u8]) -> u32 {
        (((o[0] as u32) * 256 + (o[1] as u32)) * 256 + (o[2] as u32)) * 256 + (o[3] as u32)
    }

    fn of_wide(n: u64) -> u32 {
        n as u32
    }

    fn put(self, d: &mut [u8]) {
        d[0] = (self / 16777216) as u8;
        d[1] = (self / 65536 % 256) as u8;
        d[2] = (self / 256 % 256) as u8;
        d[3] = (self % 256) as u8;
    }

    ghost few = { few4 };
}

impl Unsigned for u64 {
    ghost SIZE = { 8 };

    ghost number = { λ n. n };

    const SIZE: usize = 8;

    fn of_octets(o: &[u8]) -> u64 {
        let high = u32::of_octets(&o[..4]);
        let low = u32::of_octets(&o[4..8]);
        (high as u64) * 4294967296 + (low as u64)
    }

    fn of_wide(n: u64) -> u64 {
        n
    }

    fn put(self, d: &mut [u8]) {
        ((self / 4294967296) as u32).put(&mut d[..4]);
        ((self % 4294967296) as u32).put(&mut d[4..8]);
    }

    ghost few = { few8 };
}

// How many of n octets stand at a place and past it: none where the place is past the end.
fn left(n: usize, at: usize) -> usize
    ensures { result ≡ n - at }
{
    n.saturating_sub(at)
}

// The number at a place, and the place past it. The place is tested against the last one from which the number fits: of one
// slice that is the same for every place.
pub fn read<T: Unsigned>(s: &[u8], at: usize) -> Option<(T, usize)>
    ensures { field_at T.number at result ≡ number T.SIZE s.now at }
{
    if s.len() < T::SIZE {
        return None;
    }
    if s.len() - T::SIZE < at {
        return None;
    }
    let next = at + T::SIZE;
    Some((T::of_octets(&s[at..next]), next))
}

// The place past so many octets, whatever they are.
pub fn skip(s: &[u8], at: usize, n: usize) -> Option<usize>
    ensures { skipped_at at result ≡ ignored n s.now at }
{
    if s.len() < at {
        return None;
    }
    if s.len() - at < n {
        return None;
    }
    Some(at + n)
}

// The number that fewer than eight octets spell.
fn spelled(o: &[u8]) -> u64
    requires { length o.now < 8 }
    ensures { result ≡ value o.now }
{
    let mut n: u64 = 0;
    for x in o {
        n = n * 256 + (*x as u64);
    }
    n
}

// The number in the octets at a place, or in those that are there.
pub fn number<T: Unsigned>(s: &[u8], at: usize) -> T
    ensures { T.number result ≡ number_at T.SIZE s.now at }
{
    let n = left(s.len(), at);
    if n < T::SIZE {
        return T::of_wide(spelled(&s[s.len() - n..]));
    }
    T::of_octets(&s[at..at + T::SIZE])
}

// The number in the octets at a place, or 0 where they are not whole. It is small, so that the compiler puts it into the loops that read addresses;
// `number` is not, since it reads what is there.
pub fn whole<T: Unsigned>(s: &[u8], at: usize) -> T
    ensures { T.number result ≡ whole_at T.SIZE s.now at }
{
    if left(s.len(), at) < T::SIZE {
        return T::of_wide(0);
    }
    T::of_octets(&s[at..at + T::SIZE])
}

// The first N octets of one slice, stored over those of another. They are read into an array before the first is
// stored: the compiler does not know that the two are apart. Lend parts of N: their lengths are then not tested.
pub fn copy<const N: usize>(s: &[u8], d: &mut [u8])
    ensures { d.new ≡ copied N s.now d.old }
{
    if s.len() < N {
        return;
    }
    if d.len() < N {
        return;
    }
    let mut octets = [0; N];
    octets.copy_from_slice(&s[..N]);
    d[..N].copy_from_slice(&octets);
}

// The octets of a number at a place: the place past them, or None where they do not fit and nothing was written.
pub fn write<T: Unsigned>(d: &mut [u8], at: usize, n: T) -> Option<usize>
    ensures answer { written_at at result ≡ written T.SIZE d.old at }
    ensures buffer { d.new ≡ fitted d.old at (be T.SIZE (T.number n)) }
{
    if left(d.len(), at) < T::SIZE {
        return None;
    }
    let next = at + T::SIZE;
    n.put(&mut d[at..next]);
    Some(next)
}
