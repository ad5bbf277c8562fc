// What the factorization, the solution and the question about a pair are lent: four numbers, a plan's five lists, the two buffers of values and the
// vector, each the first entries of an array, and the pair.
use meshes::{Case, first};
use naive::{GivenPlan, GivenValues, NaivePlan, NodeLists, Room};
use planfile::LentPlan;

// The numbers: how many unknowns a node has, n, p and s, then the lengths of the lists, in their order, of both buffers and of the vector, and the two
// positions.
#[derive(Clone, Copy)]
pub(crate) enum Number {
    Unknowns,
    Nodes,
    Parts,
    Slots,
    Order,
    Sizes,
    Parents,
    ColumnStarts,
    Rows,
    Diagonal,
    Values,
    Vector,
    Position,
    Position2,
}

impl Number {
    pub(crate) const ALL: [Number; 14] = [
        Number::Unknowns,
        Number::Nodes,
        Number::Parts,
        Number::Slots,
        Number::Order,
        Number::Sizes,
        Number::Parents,
        Number::ColumnStarts,
        Number::Rows,
        Number::Diagonal,
        Number::Values,
        Number::Vector,
        Number::Position,
        Number::Position2,
    ];
}

// `numbers` has the numbers in the order of `Number`. `multiplications` is the plan's own count, or 0 where it is not known.
// kept: arrays with lengths beside, for memory is fixed.
#[derive(Clone, Copy)]
pub(crate) struct Filling {
    numbers: [usize; 14],
    pub(crate) multiplications: u64,
    pub(crate) order: [u16; 64],
    pub(crate) sizes: [u16; 64],
    pub(crate) parents: [u16; 64],
    pub(crate) column_starts: [u32; 65],
    pub(crate) rows: [u16; 2016],
    pub(crate) diagonal: [f64; 64],
    pub(crate) values: [f64; 2016],
    pub(crate) vector: [f64; 64],
}

// The plan of a mesh, which is the planner's, for `compare` finds them the same. Its lists are longer than needed, and each 0 behind them would be a
// fault in them; its buffers and the vector have the right lengths and hold zeros, and the pair is 0 and 0. A plan of no nodes where the mesh has
// none.
pub(crate) fn planned(c: &Case) -> Filling {
    let room = Room {
        order: 64,
        positions: 64,
        sizes: 64,
        parents: 64,
        column_starts: 65,
        rows: 2016,
    };
    match naive::plan(1, c.mesh(), room) {
        Ok(plan) => of_plan(plan),
        Err(_) => Filling {
            numbers: [1, 0, 0, 0, 64, 64, 64, 65, 2016, 0, 0, 0, 0, 0],
            multiplications: 0,
            order: [0; 64],
            sizes: [0; 64],
            parents: [0; 64],
            column_starts: [0; 65],
            rows: [0; 2016],
            diagonal: [0.0; 64],
            values: [0.0; 2016],
            vector: [0.0; 64],
        },
    }
}

fn of_plan(plan: NaivePlan) -> Filling {
    let NaivePlan {
        nodes,
        parts,
        slots,
        multiplications,
        order,
        sizes,
        parents,
        column_starts,
        rows,
        ..
    } = plan;
    let n = nodes as usize;
    let p = parts as usize;
    let s = slots as usize;
    Filling {
        numbers: [1, n, p, s, 64, 64, 64, 65, 2016, n, s, n, 0, 0],
        multiplications,
        order,
        sizes,
        parents,
        column_starts,
        rows,
        diagonal: [0.0; 64],
        values: [0.0; 2016],
        vector: [0.0; 64],
    }
}

impl Filling {
    pub(crate) fn number(&self, number: Number) -> usize {
        self.numbers[number as usize]
    }

    pub(crate) fn with_number(mut self, number: Number, x: usize) -> Filling {
        self.numbers[number as usize] = x;
        self
    }

    pub(crate) fn order(&self) -> &[u16] {
        first(&self.order, self.number(Number::Order))
    }

    pub(crate) fn sizes(&self) -> &[u16] {
        first(&self.sizes, self.number(Number::Sizes))
    }

    pub(crate) fn parents(&self) -> &[u16] {
        first(&self.parents, self.number(Number::Parents))
    }

    pub(crate) fn column_starts(&self) -> &[u32] {
        first(&self.column_starts, self.number(Number::ColumnStarts))
    }

    pub(crate) fn rows(&self) -> &[u16] {
        first(&self.rows, self.number(Number::Rows))
    }

    pub(crate) fn diagonal(&self) -> &[f64] {
        first(&self.diagonal, self.number(Number::Diagonal))
    }

    pub(crate) fn values(&self) -> &[f64] {
        first(&self.values, self.number(Number::Values))
    }

    // The plan as it is lent to the library.
    pub(crate) fn lent<'a>(&'a self) -> LentPlan<'a> {
        LentPlan {
            unknowns: self.number(Number::Unknowns),
            nodes: self.number(Number::Nodes),
            parts: self.number(Number::Parts),
            slots: self.number(Number::Slots),
            order: self.order(),
            sizes: self.sizes(),
            parents: self.parents(),
            column_starts: self.column_starts(),
            rows: self.rows(),
        }
    }

    // Its columns as they are lent to `naive`,
    pub(crate) fn columns<'a>(&'a self) -> NodeLists<'a> {
        NodeLists {
            nodes: self.number(Number::Nodes),
            starts: self.column_starts(),
            entries: self.rows(),
        }
    }

    // the plan,
    pub(crate) fn given<'a>(&'a self) -> GivenPlan<'a> {
        GivenPlan {
            unknowns: self.number(Number::Unknowns),
            parts: self.number(Number::Parts),
            slots: self.number(Number::Slots),
            order: self.order(),
            sizes: self.sizes(),
            parents: self.parents(),
            columns: self.columns(),
        }
    }

    // and its values.
    pub(crate) fn given_values<'a>(&'a self) -> GivenValues<'a> {
        GivenValues {
            diagonal: self.diagonal(),
            values: self.values(),
        }
    }

    // The same with lists of just the lengths that are needed.
    pub(crate) fn tight(mut self) -> Filling {
        let n = self.number(Number::Nodes);
        let p = self.number(Number::Parts);
        let s = self.number(Number::Slots);
        let a = self.number(Number::Position);
        let b = self.number(Number::Position2);
        self.numbers = [1, n, p, s, n, p, p, n % 65536 + 1, s, n, s, n, a, b];
        self
    }

    // The same with another pair.
    pub(crate) fn asking(self, a: usize, b: usize) -> Filling {
        self.with_number(Number::Position, a)
            .with_number(Number::Position2, b)
    }
}
