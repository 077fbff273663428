// What several calls answer with: that nothing is refused, or what is; and how many octets were written.
ghost use Rattle.std.specs.Prelude.{◌≡◌};
ghost use Rattle.format.specs.Writing.{length_by};
ghost use Rattle.format.specs.Outcome.{reason_number};
ghost use Rattle.pim.specs.Answers.{accepted, refusal, length_answer};

// What is refused: 01's number, or 0 where nothing is, and the place.
#[repr(C)]
#[derive(Clone, Copy)]
pub struct Refusal {
    pub number: u8,
    pub place: usize,
}

impl From<format::Refusal> for Refusal {
    ghost from_gives = { λ r result. result ≡ refusal (reason_number r.reason) r.place };

    fn from(r: format::Refusal) -> Refusal {
        Refusal {
            number: u8::from(r.reason),
            place: r.place,
        }
    }
}

#[repr(C)]
#[derive(Clone, Copy)]
pub struct LengthAnswer {
    pub refusal: Refusal,
    pub length: usize,
}

// Nothing is refused.
pub(crate) fn accepted() -> Refusal
    ensures { result ≡ accepted }
{
    Refusal {
        number: 0,
        place: 0,
    }
}

pub(crate) fn length_answer(w: Result<usize, format::Refusal>) -> LengthAnswer
    ensures { result ≡ length_answer (length_by w) }
{
    match w {
        Ok(length) => LengthAnswer {
            refusal: accepted(),
            length,
        },
        Err(r) => LengthAnswer {
            refusal: Refusal::from(r),
            length: 0,
        },
    }
}
