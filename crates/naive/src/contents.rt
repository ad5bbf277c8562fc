// Checks 15 to 19 over a plan's lists, each over all of them before the next. Right for at most 64 nodes; check 17 of the rows for any number.
use crate::given::{GivenPlan, NodeLists};
use crate::lists::{ascending, total};
use crate::parts::NO_PARENT;
use crate::refused::{Refused, refused_if};
use crate::sets::{has, only};

// 17, of column j: "a column's rows are not strictly ascending, above the column and below n".
fn column_fails(n: usize, j: usize, column: &[u16]) -> bool {
    !ascending(column)
        || column
            .iter()
            .any(|i| usize::from(*i) <= j || n <= usize::from(*i))
}

// 17's rule of the rows alone, where the column starts are sound.
pub(crate) fn rows_fail(columns: NodeLists) -> bool {
    columns.some_list(|j, column| column_fails(columns.nodes, j, column))
}

// 19, of a column: a row after the first that is not in the first row's column.
fn rows_apart(columns: NodeLists, column: &[u16]) -> bool {
    match column.split_first() {
        Some((first, others)) => {
            let allowed = columns.list(usize::from(*first));
            others.iter().any(|i| !allowed.contains(i))
        }
        None => false,
    }
}

// Whether k's parent (document 01: father) is neither 65,535 nor a later part below p.
fn parent_fails(p: usize, k: usize, parent: u16) -> bool {
    let later = k < usize::from(parent) && usize::from(parent) < p;
    parent != NO_PARENT && !later
}

impl<'a> GivenPlan<'a> {
    // 15: "the order is not each node once".
    fn order_fails(self) -> bool {
        let n = self.columns.nodes;
        let order = self.order;
        (0..n).any(|v| order
            .iter()
            .take(n)
            .filter(|x| usize::from(**x) == v)
            .count()
            != 1)
    }

    // 16: "a size is 0, sizes do not sum to n, or a father is neither 65,535 nor a later part below p".
    fn parts_fail(self) -> bool {
        let p = self.parts;
        self.sizes.iter().take(p).any(|size| *size == 0)
            || total(self.sizes, p) != self.columns.nodes
            || self
                .parents
                .iter()
                .take(p)
                .enumerate()
                .any(|(k, parent)| parent_fails(p, k, *parent))
    }

    // 17: the starts are not those of so many slots, or the rows fail.
    fn columns_fail(self) -> bool {
        let columns = self.columns;
        columns.starts_fall() || columns.start(columns.nodes) != self.slots || rows_fail(columns)
    }

    // The part that position j belongs to: parts take the positions in turn, each as many as its size.
    fn part_of(self, j: usize) -> usize {
        let mut end = 0usize;
        for (k, size) in self.sizes.iter().take(self.parts).enumerate() {
            end = end.saturating_add(usize::from(*size));
            if j < end {
                return k;
            }
        }
        self.parts
    }

    // The parent of part q, or 65,535 for none.
    fn parent(self, q: usize) -> usize {
        usize::from(self.parents.get(q).copied().unwrap_or(NO_PARENT))
    }

    // A part and its ancestors (document 01: forefathers).
    fn with_ancestors(self, part: usize) -> u64 {
        let mut s = 0u64;
        let mut q = part;
        for _ in 0..64usize {
            s |= only(q);
            q = self.parent(q);
        }
        s
    }

    // 18, of column j: "a row lies outside its column's part and that part's forefathers".
    fn rows_outside(self, j: usize, column: &[u16]) -> bool {
        let allowed = self.with_ancestors(self.part_of(j));
        column
            .iter()
            .any(|i| !has(allowed, self.part_of(usize::from(*i))))
    }

    // The first of checks 15 to 19 that fails.
    pub(crate) fn check_contents(self) -> Result<(), Refused> {
        let columns = self.columns;
        refused_if(self.order_fails(), 15)?;
        refused_if(self.parts_fail(), 16)?;
        refused_if(self.columns_fail(), 17)?;
        refused_if(
            columns.some_list(|j, column| self.rows_outside(j, column)),
            18,
        )?;
        refused_if(
            columns.some_list(|_, column| rows_apart(columns, column)),
            19,
        )
    }
}
