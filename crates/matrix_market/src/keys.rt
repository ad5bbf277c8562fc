// A pair as one number, its key: column × 2^32 + row, both counted from 1. Keys ascend by column and in a column by row, as files have their pairs.
ghost use Rattle.std.specs.Prelude.{◌≡◌, ◌+◌, ◌≤◌, ◌<◌};
ghost use Rattle.plan.specs.MatrixMarket.{max_number};
ghost use Rattle.theory.specs.Keys.{key_of, pair_of_key};

const COLUMN: u64 = 4294967296;

// The key of a pair. O(1).
pub(crate) fn key(row: u64, column: u64) -> u64
    requires { (row ≤ max_number) × (column ≤ max_number) }
    ensures { result ≡ key_of (row, column) }
{
    column * COLUMN + row
}

// The node of the row of a key's pair, counted from 0. O(1).
pub(crate) fn row_node(key: u64) -> usize
    requires { 0 < (pair_of_key key).0 }
    ensures { result + 1 ≡ (pair_of_key key).0 }
{
    (key % COLUMN) as usize - 1
}

// And that of its column. O(1).
pub(crate) fn column_node(key: u64) -> usize
    requires { 0 < (pair_of_key key).1 }
    ensures { result + 1 ≡ (pair_of_key key).1 }
{
    (key / COLUMN) as usize - 1
}
