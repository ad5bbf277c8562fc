// The listing program's text: from the bytes of the input to the bytes of the listing.
#![tactic(auto)]

mod input;
mod listed;
mod output;

ghost use Rattle.std.specs.Prelude.{◌≡◌, false, [], ◌≤◌};
ghost use Rattle.plan.specs.Listing.{max_listed_nodes, input_mesh, bad_input, listing};
ghost use Rattle.mesh.specs.Lent.{lent_by};
ghost use Rattle.text.specs.Lines.{mesh_text};

use crate::input::{
    LISTED_ENTRIES, LISTED_NODES, bad_input, entry_count, node_count, read_neighbours, read_starts,
};
use crate::listed::put_answer;
use mesh::LentMesh;
pub use output::Text;
use plan::Refusal;

// the unknowns for each node that the plan of a listing is for
const LISTED_UNKNOWNS: usize = 1;
// the most slots of a mesh that is listed: 256 · 255 / 2
const LISTED_SLOTS: usize = 32640;

// The listing of a mesh: its plan, or the number of its first fault. O(planning + n · parts + slots · digits).
fn put_mesh(text: &mut Text, mesh: &LentMesh)
    requires { (mesh.now.nodes ≤ max_listed_nodes) × (text.old ≡ []) }
    ensures { text.new ≡ mesh_text (lent_by mesh.now) }
{
    let mut order = [0; LISTED_NODES];
    let mut positions = [0; LISTED_NODES];
    let mut sizes = [0; LISTED_NODES];
    let mut parents = [0; LISTED_NODES];
    let mut column_starts = [0; LISTED_NODES + 1];
    let mut rows = [0; LISTED_SLOTS];
    let answer = planner::plan(
        LISTED_UNKNOWNS,
        mesh,
        &mut order,
        &mut positions,
        &mut sizes,
        &mut parents,
        &mut column_starts,
        &mut rows,
    );
    put_answer(text, answer, &order, &sizes, &column_starts, &rows);
}

// The listing of the mesh that the input holds, which has passed check 20. O(planning + n · parts + slots · digits).
fn put_input(text: &mut Text, input: &[u8])
    requires { (bad_input input.now ≡ false) × (text.old ≡ []) }
    ensures { text.new ≡ mesh_text (input_mesh input.now) }
{
    let mut starts = [0; LISTED_NODES + 1];
    let mut neighbours = [0; LISTED_ENTRIES];
    read_starts(input, &mut starts);
    read_neighbours(input, &mut neighbours);
    let n = node_count(input);
    let entries = entry_count(input);
    let mesh = LentMesh {
        nodes: n,
        starts: &starts[..n + 1],
        neighbours: &neighbours[..entries],
    };
    put_mesh(text, &mesh);
}

// The listing, whole: what the program writes when it has read these bytes: check 20, then the mesh. O(planning + n · parts + slots · digits).
pub fn list(input: &[u8]) -> Text
    ensures { result ≡ listing input.now }
{
    let mut text = Text::new();
    if bad_input(input) {
        text.refusal(Refusal::Input);
    } else {
        put_input(&mut text, input);
    }
    text
}
