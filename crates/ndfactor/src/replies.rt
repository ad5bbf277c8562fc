// What C is told of factoring and of the factor at a pair, by structs of numbers.
ghost use Rattle.std.specs.Prelude.{◌≡◌};
ghost use Rattle.plan.specs.Answers.{held_reply};
ghost use Rattle.ndfactor.specs.Replies.{ndf_report, ndf_held};

use plan::{HeldAnswer, Refusal, Report};

// kept: the C interface: refusals are numbers, 0 for none, and so are kinds.

// What factoring answers: the refusal's number, 0 for none, and the report: the smallest and the largest pivot, and the multiplications and divisions
// done, all 0 where it is refused.
#[repr(C)]
#[derive(Clone, Copy)]
pub struct NdfReport {
    pub refusal: u32,
    pub smallest: f64,
    pub largest: f64,
    pub operations: u64,
}

// The reply of factoring. O(1).
impl From<Result<Report, Refusal>> for NdfReport {
    fn from(answer: Result<Report, Refusal>) -> NdfReport
        ensures { result ≡ ndf_report answer }
    {
        let (refusal, report) = match answer {
            Ok(report) => (0, report),
            Err(refusal) => (refusal.number(), Report::zero()),
        };
        NdfReport {
            refusal,
            smallest: report.smallest,
            largest: report.largest,
            operations: report.operations,
        }
    }
}

// What the question about the factor at a pair answers: the refusal's number, 0 for none; kind 1 where a number is held, on the diagonal or in a slot, 2
// where there is no slot, 0 where it is refused; and the number, 0 where there is none.
#[repr(C)]
#[derive(Clone, Copy)]
pub struct NdfHeld {
    pub refusal: u32,
    pub kind: u32,
    pub value: f64,
}

// The reply of that question. O(1).
impl From<HeldAnswer> for NdfHeld {
    fn from(answer: HeldAnswer) -> NdfHeld
        ensures { result ≡ ndf_held (held_reply answer) }
    {
        match answer {
            HeldAnswer::Value(value) => NdfHeld {
                refusal: 0,
                kind: 1,
                value,
            },
            HeldAnswer::NoSlot => NdfHeld {
                refusal: 0,
                kind: 2,
                value: 0.0,
            },
            HeldAnswer::Refused(number) => NdfHeld {
                refusal: number,
                kind: 0,
                value: 0.0,
            },
        }
    }
}
