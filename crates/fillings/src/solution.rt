// A filling solved, and read at a pair, by the proved library and by `naive`. The buffers need not hold what factoring leaves.
use crate::counts::{Answer, Asked, Counts, Outcome};
use crate::filling::{Filling, Number};
use crate::trial::{holds, number_of, same};
use meshes::front;
use naive::Refused;
use plan::{HeldAnswer, Refusal};

// Whether what the library reads is what `naive` does.
// kept: compared by hand, here and below, for the two are types apart: `naive` shares none with the library.
fn same_reading(b: HeldAnswer, w: Result<Option<f64>, Refused>) -> bool {
    match (b, w) {
        (HeldAnswer::Value(x), Ok(Some(want))) => same(x, want),
        (HeldAnswer::NoSlot, Ok(None)) => true,
        (HeldAnswer::Refused(number), Err(refused)) => number == refused.0,
        _ => false,
    }
}

// The pair of positions, read by both.
fn try_reading(c: &mut Counts, f: &Filling) {
    let a = f.number(Number::Position);
    let b = f.number(Number::Position2);
    let found = factor::held_at(
        f.number(Number::Nodes),
        f.column_starts(),
        f.rows(),
        f.diagonal(),
        f.values(),
        a,
        b,
    );
    let w = naive::held_at(f.columns(), f.given_values(), a, b);
    let answer = match w {
        Ok(None) => Answer::NoSlot,
        _ => Answer::Number(number_of(&w)),
    };
    c.count(Outcome {
        asked: Asked::Read,
        answer,
        same: same_reading(found, w),
        as_planned: true,
    });
}

// What is counted of a solution: its number, or that its first entry is not finite.
fn solved(want: &Result<[f64; 64], Refused>) -> Answer {
    match want {
        Ok(x) => {
            if x[0] - x[0] != 0.0 {
                return Answer::NotFinite;
            }
            Answer::Number(0)
        }
        Err(refused) => Answer::Number(refused.0),
    }
}

// Whether both answered the same, and the library left the solution, or, where it refused, the vector as it was.
fn same_solution(
    f: &Filling,
    answer: Result<(), Refusal>,
    left: &[f64],
    want: &Result<[f64; 64], Refused>,
) -> bool {
    let lent = f.number(Number::Vector);
    match (answer, want) {
        (Ok(()), Ok(x)) => holds(left, x, lent, &f.vector),
        (Err(refusal), Err(refused)) => {
            refusal.number() == refused.0 && holds(left, &f.vector, lent, &f.vector)
        }
        _ => false,
    }
}

// The filling solved by `naive`, then by the library.
fn try_solving(c: &mut Counts, f: &Filling) {
    let mut left = f.vector;
    let vector = front(&mut left, f.number(Number::Vector));
    let want = naive::solve(f.given(), f.given_values(), vector);
    let answer = factor::solve(&f.lent(), f.diagonal(), f.values(), vector);
    c.count(Outcome {
        asked: Asked::Solve,
        answer: solved(&want),
        same: same_solution(f, answer, &left, &want),
        as_planned: true,
    });
}

// A filling that is solved and read by both.
pub(crate) fn try_passes(c: &mut Counts, f: &Filling) {
    try_solving(c, f);
    try_reading(c, f);
}
