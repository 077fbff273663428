// Link speeds compared by exact size.
ghost use Rattle.std.specs.Prelude.{◌≡◌, ◌^◌, ◌≤◌, min};
ghost use Rattle.attributes.specs.Speed.{compared};

use std::cmp::Ordering;

// 10 to the power d: from 4 on, to the power 4.
fn power(d: u16) -> u32
    ensures { (result ≡ 10 ^ min d 4) × (result ≤ 10000) }
{
    match d {
        0 => 1,
        1 => 10,
        2 => 100,
        3 => 1000,
        _ => 10000,
    }
}

// Two speeds by exact size. What both exponents have in common is left out; and a significand is under 1024, so a
// difference of more than 4 says no more than 4.
pub fn compare_speeds(a: u16, b: u16) -> Ordering
    ensures { result ≡ compared a b }
{
    let m = (a % 1024) as u32;
    let n = (b % 1024) as u32;
    let i = a / 1024;
    let j = b / 1024;
    if i < j {
        return m.cmp(&(n * power(j - i)));
    }
    (m * power(i - j)).cmp(&n)
}
