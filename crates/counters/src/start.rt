// Counters to begin with.
ghost use Rattle.std.specs.Prelude.{◌≡◌};
ghost use Rattle.counters.specs.Counting.{no_totals, none_by_kind, none_counted};

use crate::{ByKind, Counters, Totals};

fn no_totals() -> Totals
    ensures { result ≡ no_totals }
{
    Totals {
        messages: 0,
        records: 0,
    }
}

fn none_by_kind() -> ByKind
    ensures { result ≡ none_by_kind }
{
    let t = no_totals();
    ByKind {
        hello: t,
        assert: t,
        simple: t,
        aggregated: t,
        null_register: t,
        register_stop: t,
    }
}

// Counters that have counted nothing, to begin with.
pub fn none() -> Counters
    ensures { result ≡ none_counted }
{
    let b = none_by_kind();
    Counters {
        sent: b,
        received: b,
    }
}
