// The listing program's input: "n (16 bits), starts (32 bits each), neighbours (16 bits each) to the end, little-endian".
ghost use Rattle.std.specs.Prelude.{◌≡◌, ◌+◌, ◌≤◌, ◌<◌, length};
ghost use Rattle.plan.specs.Lists.{written};
ghost use Rattle.plan.specs.File.{decode16};
ghost use Rattle.plan.specs.Listing.{neighbours_at, entry_count, input_mesh, bad_input};

use coding::{read16, read16s, read32};

// the most nodes of a mesh that is listed
pub(crate) const LISTED_NODES: usize = 256;
// the most neighbour entries of one
pub(crate) const LISTED_ENTRIES: usize = 2048;

// How many nodes the mesh has. O(1).
pub(crate) fn node_count(input: &[u8]) -> usize
    requires { 2 ≤ length input.now }
    ensures { (result ≡ decode16 input.now 0) × (result < 65536) }
{
    read16(input, 0) as usize
}

// Where the neighbours begin. O(1).
fn neighbours_at(input: &[u8]) -> usize
    requires { 2 ≤ length input.now }
    ensures { result ≡ neighbours_at input.now }
{
    2 + 4 * (node_count(input) + 1)
}

// How many neighbour entries there are. O(1).
pub(crate) fn entry_count(input: &[u8]) -> usize
    requires { neighbours_at input.now ≤ length input.now }
    ensures { result ≡ entry_count input.now }
{
    (input.len() - neighbours_at(input)) / 2
}

// Check 20: over 256 nodes, over 2,048 entries, an end before the last start, or an incomplete number. O(1).
pub(crate) fn bad_input(input: &[u8]) -> bool
    ensures { result ≡ bad_input input.now }
{
    if input.len() < 2 {
        return true;
    }
    if node_count(input) > LISTED_NODES {
        return true;
    }
    if input.len() < neighbours_at(input) {
        return true;
    }
    if entry_count(input) > LISTED_ENTRIES {
        return true;
    }
    (input.len() - neighbours_at(input)) % 2 == 1
}

// The starts, to the front of a buffer. O(n).
pub(crate) fn read_starts(input: &[u8], starts: &mut [u32])
    requires input_in_bounds { neighbours_at input.now ≤ length input.now }
    requires input_in_bounds_2 { decode16 input.now 0 + 1 ≤ length starts.old }
    ensures { starts.new ≡ written (input_mesh input.now).starts starts.old }
{
    let count = node_count(input) + 1;
    for k in 0..count {
        starts[k] = read32(input, 2 + 4 * k);
    }
}

// The neighbours, to the front of a buffer. O(entries).
pub(crate) fn read_neighbours(input: &[u8], neighbours: &mut [u16])
    requires input_in_bounds { neighbours_at input.now ≤ length input.now }
    requires input_in_bounds_2 { entry_count input.now ≤ length neighbours.old }
    ensures { neighbours.new ≡ written (input_mesh input.now).neighbours neighbours.old }
{
    let first = neighbours_at(input);
    let count = entry_count(input);
    read16s(input, first, 2, count, neighbours);
}
