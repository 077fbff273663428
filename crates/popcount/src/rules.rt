// The rules of merging for two numbers: a sum that stays in its field, and which of two speeds is kept.
ghost use Rattle.std.specs.Prelude.{◌≡◌, ◌+◌, ◌≤◌};
ghost use Rattle.popcount.specs.Rules.{at_most, slower, faster};

use attributes::compare_speeds;

// A sum that stays at its field's maximum.
pub(crate) fn sum(a: u32, b: u32, most: u32) -> u32
    ensures { (result ≡ at_most most (a + b)) × (result ≤ most) }
{
    a.saturating_add(b).min(most)
}

// The second of two speeds if it is less by exact size, else the first.
pub(crate) fn slower(s: u16, t: u16) -> u16
    ensures { result ≡ slower s t }
{
    if compare_speeds(t, s).is_lt() { t } else { s }
}

// The second of two speeds if it is greater by exact size, else the first.
pub(crate) fn faster(s: u16, t: u16) -> u16
    ensures { result ≡ faster s t }
{
    if compare_speeds(s, t).is_lt() { t } else { s }
}
