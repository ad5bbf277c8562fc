// A filling factored by the proved library and by `naive`, and solved and read, before it and with what it leaves.
use crate::counts::{Answer, Asked, Counts, Outcome};
use crate::filling::{Filling, Number};
use crate::solution::try_passes;
use meshes::front;
use naive::{NaiveFactor, NaiveReport, Refused};
use plan::{Refusal, Report};

// What the library leaves: its answer and the arrays whose first entries were lent.
#[derive(Clone, Copy)]
struct Left {
    answer: Result<Report, Refusal>,
    diagonal: [f64; 64],
    values: [f64; 2016],
}

// The library's work on a filling.
fn factor(f: &Filling) -> Left {
    let mut diagonal = f.diagonal;
    let mut values = f.values;
    let answer = factor::factor(
        &f.lent(),
        front(&mut diagonal, f.number(Number::Diagonal)),
        front(&mut values, f.number(Number::Values)),
    );
    Left {
        answer,
        diagonal,
        values,
    }
}

// The number of an answer of `naive`: that of the refusal, 0 for none.
pub(crate) fn number_of<T>(answer: &Result<T, Refused>) -> u32 {
    match answer {
        Ok(_) => 0,
        Err(refused) => refused.0,
    }
}

// Whether two floats have the same bits; one NaN is taken for another. Equal floats have, but for the two zeros, whose reciprocals differ.
pub(crate) fn same(a: f64, b: f64) -> bool {
    if a != a {
        return b != b;
    }
    a == b && 1.0 / a == 1.0 / b
}

// Whether each entry is as it should be: that of `want` where it was lent, and else as found.
pub(crate) fn holds(left: &[f64], want: &[f64], lent: usize, found: &[f64]) -> bool {
    let wanted = want.iter().take(lent).chain(found.iter().skip(lent));
    left.iter().zip(wanted).all(|(x, y)| same(*x, *y))
}

// Whether both report the same in every bit, or refuse by the same number.
// kept: compared by hand, for the two are types apart: `naive` shares none with the library.
fn same_report(b: Result<Report, Refusal>, w: Result<NaiveReport, Refused>) -> bool {
    match (b, w) {
        (Ok(report), Ok(want)) => {
            same(report.smallest, want.smallest)
                && same(report.largest, want.largest)
                && report.operations == want.operations
        }
        (Err(refusal), Err(refused)) => refusal.number() == refused.0,
        _ => false,
    }
}

// Whether both answered and left the same, in every bit of both arrays, and no pair of two rows of a column is without a slot.
fn agree(f: &Filling, b: &Left, w: &NaiveFactor) -> bool {
    same_report(b.answer, w.answer)
        && w.strays == 0
        && holds(
            &b.diagonal,
            &w.diagonal,
            f.number(Number::Diagonal),
            &f.diagonal,
        )
        && holds(&b.values, &w.values, f.number(Number::Values), &f.values)
}

// Whether the library counted as many operations as were planned, if it factored and they are known.
fn as_planned(f: &Filling, answer: Result<Report, Refusal>) -> bool {
    match answer {
        Ok(report) => f.multiplications == 0 || report.operations == f.multiplications,
        Err(_) => true,
    }
}

impl Filling {
    // The filling with the buffers that the library left.
    fn with_left(mut self, left: Left) -> Filling {
        let Left {
            diagonal,
            values,
            ..
        } = left;
        self.diagonal = diagonal;
        self.values = values;
        self
    }
}

// A filling that is factored by both, solved and read. Where buffers were changed, which 31 does too, it is solved and read with these as well.
pub(crate) fn try_filling(c: &mut Counts, f: &Filling) {
    let b = factor(f);
    let w = naive::factor(f.given(), f.given_values());
    let number = number_of(&w.answer);
    c.count(Outcome {
        asked: Asked::Factor,
        answer: Answer::Number(number),
        same: agree(f, &b, &w),
        as_planned: as_planned(f, b.answer),
    });
    try_passes(c, f);
    if number == 0 || number == 31 {
        try_passes(c, &f.with_left(b));
    }
}
