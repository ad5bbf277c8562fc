// The reader of Matrix Market texts, "the coordinate pattern symmetric kind": checks 23, 24, 25, 1, 3, 26 and 8, then the mesh in the lent buffers.
#![tactic(auto)]

mod banner;
mod keys;
mod lists;
mod pairs;
mod repeats;
mod size;

ghost use Rattle.std.specs.Prelude.{◌≡◌, ◌≤◌, length};
ghost use mathlib.Core.List.{flatten};
ghost use Rattle.plan.specs.Refusals.{fault_of, first_fault};
ghost use Rattle.plan.specs.Mesh.{max_entries, Mesh};
ghost use Rattle.plan.specs.MadeMesh.{mesh_of, mesh_buffers, MeshCapacity};
ghost use Rattle.plan.specs.MatrixMarket.{TextRead};
ghost use Rattle.matrix_market.specs.Lines.{wrong_lines, wrong_matrix, pairs_checks};
ghost use Rattle.matrix_market.specs.Made.{size_checks, ListsHanded};
ghost use Rattle.matrix_market.specs.SortedPairs.{key_lists};

use crate::lists::SortedKeys;
use crate::pairs::{Tally, survey};
use crate::repeats::repeated;
use crate::size::{Size, read_head};
use mesh::{bad_node_count, too_long, too_short};
use plan::{MeshCounts, Plan, Refusal};

// the most pairs that an accepted text has: one for every two entries, and a diagonal one for every node
const BLOCK: usize = Plan::ENTRIES / 2 + Plan::NODES;

// Room for the keys of one block of pairs. O(36,864).
fn no_keys() -> [u64; BLOCK]
    ensures { length result ≡ 36864 }
{
    [0; BLOCK]
}

// Check 23 of the lines of the pairs, where each holds a pair: they are not as many as stated. O(1).
fn wrong_lines(size: Size, tally: Tally) -> bool
    ensures { result ≡ wrong_lines size tally }
{
    tally.pairs as u64 != size.pairs
}

// Check 24: the matrix is not square, or a pair is bad. O(1).
fn wrong_matrix(size: Size, tally: Tally) -> bool
    ensures { result ≡ wrong_matrix size tally }
{
    size.rows != size.columns || tally.bad
}

// Checks 23 and 24 of a text whose head is good. O(1).
#[tactic(auto, unfolding(plan::specs::Refusals::first_fault, crate::specs::Lines::pairs_checks))]
fn pairs_refusal(size: Size, tally: Tally) -> Result<(), Refusal>
    ensures { fault_of result ≡ first_fault (pairs_checks size tally) }
{
    if wrong_lines(size, tally) {
        return Err(Refusal::Text);
    }
    if wrong_matrix(size, tally) {
        return Err(Refusal::Matrix);
    }
    Ok(())
}

// Checks 1 and 3 of a mesh that is made, by its numbers of nodes and entries. O(1).
#[tactic(auto, unfolding(plan::specs::Refusals::first_fault, plan::specs::MadeMesh::made_checks, plan::specs::Mesh::too_many_entries, crate::specs::Made::size_checks))]
fn size_refusal(n: usize, entries: usize) -> Result<(), Refusal>
    ensures { (m : Mesh) → m.nodes ≡ n → length m.neighbours ≡ entries → (room : MeshCapacity) → fault_of result ≡ first_fault (size_checks m room) }
{
    if bad_node_count(n) {
        return Err(Refusal::NodeCount);
    }
    if entries > Plan::ENTRIES {
        return Err(Refusal::EntryCount);
    }
    Ok(())
}

// What is left of reading a text whose pairs are sorted and whose mesh has passed 1 and 3: checks 26 and 8, then the mesh in the lent buffers.
// O(4,096 + keys).
fn hand_out(
    pairs: &SortedKeys,
    entries: usize,
    starts: &mut [u32],
    neighbours: &mut [u16],
) -> Result<MeshCounts, Refusal>
    requires { (entries ≤ max_entries) × (length (flatten (key_lists pairs.now.nodes pairs.now.keys.now)) ≡ entries) }
    ensures { ListsHanded (mesh_of pairs.now.nodes (key_lists pairs.now.nodes pairs.now.keys.now)) result (mesh_buffers starts.old neighbours.old) (mesh_buffers starts.new neighbours.new) }
{
    let n = pairs.nodes;
    let counts = pairs.count_entries();
    if too_long(n, &counts) {
        return Err(Refusal::TooManyNeighbours);
    }
    if too_short(n, entries, starts.len(), neighbours.len()) {
        return Err(Refusal::BuffersTooShort);
    }
    pairs.write_lists(&counts, starts, neighbours);
    Ok(MeshCounts {
        nodes: n as u32,
        entries: entries as u32,
    })
}

// Reading a text: checks 23, 24, 25, 1, 3, 26 and 8 in this order, then the mesh in the lent buffers. Nothing is written before all checks are passed.
// O(36,864 + bytes) for an accepted text whose pairs come in order, O(pairs · log pairs) more for any other; it is one block. A text of more than 36,864
// pairs is searched for a pair given again in (pairs / 36,864) runs. It works in less than 320 KB of stack, nearly all of it the keys of one block.
pub fn read(text: &[u8], starts: &mut [u32], neighbours: &mut [u16]) -> Result<MeshCounts, Refusal>
    ensures { TextRead text.now result (mesh_buffers starts.old neighbours.old) (mesh_buffers starts.new neighbours.new) }
{
    let size = read_head(text).ok_or(Refusal::Text)?;
    let mut keys = no_keys();
    let tally = survey(text, size.next, size.rows, &mut keys).ok_or(Refusal::Text)?;
    pairs_refusal(size, tally)?;
    let pairs = tally.pairs;
    if repeated(text, size.next, size.rows, pairs, &mut keys) {
        return Err(Refusal::RepeatedPair);
    }
    let n = size.rows as usize;
    let entries = 2 * tally.links;
    size_refusal(n, entries)?;
    let sorted = SortedKeys {
        nodes: n,
        keys: &keys[..pairs],
    };
    hand_out(&sorted, entries, starts, neighbours)
}
