// The mean of records over the accepted messages of the packed kinds, as a fraction in lowest terms.
ghost use Rattle.std.specs.Prelude.{◌≡◌};
ghost use Rattle.reporting.specs.Fraction.{gcd, lowest, together, packed_totals, mean_of};

use crate::{Fraction, Tally};
use counters::{ByKind, Totals};

// The greatest common divisor, by Euclid's rule.
fn gcd(a: u64, b: u64) -> u64
    ensures { result ≡ gcd a b }
{
    let mut x = a;
    let mut y = b;
    // How many turns it takes is known only at the end, so this is no `for`.
    while y != 0 {
        let rest = x % y;
        x = y;
        y = rest;
    }
    x
}

// A fraction in lowest terms; 0/1 over nothing.
fn lowest(a: u64, b: u64) -> Fraction
    ensures { result ≡ lowest a b }
{
    if b == 0 {
        return Fraction {
            numerator: 0,
            denominator: 1,
        };
    }
    let d = gcd(a, b);
    Fraction {
        numerator: a / d,
        denominator: b / d,
    }
}

// Messages and records of two kinds.
fn sum(a: Totals, b: Totals) -> Totals
    ensures { result ≡ together a b }
{
    let messages = a.messages.saturating_add(b.messages);
    let records = a.records.saturating_add(b.records);
    Totals { messages, records }
}

// Those of the packed kinds, all but hello and assert.
fn packed(t: ByKind) -> Totals
    ensures { result ≡ packed_totals t }
{
    let asserts = sum(t.simple, t.aggregated);
    let pairs = sum(t.null_register, t.register_stop);
    sum(asserts, pairs)
}

// The mean of records over packed messages.
pub fn mean(t: Tally) -> Fraction
    ensures { result ≡ mean_of t }
{
    let p = packed(t.accepted);
    lowest(p.records, p.messages)
}
