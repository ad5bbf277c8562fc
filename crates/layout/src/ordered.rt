// A checked mesh in an order of its nodes.
ghost use Rattle.std.specs.Prelude.{◌≡◌, ◌<◌, get_or};
ghost use Rattle.plan.specs.Mesh.{neighbours_of};
ghost use Rattle.mesh.specs.Lent.{as_lent};
ghost use Rattle.layout.specs.Arrays.{Ordered};

use mesh::CheckedMesh;

// A mesh that passed its checks, an order of its nodes, and the position of each node in it. What counts and writes rows takes it.
#[derive(Clone, Copy)]
pub(crate) struct OrderedMesh<'a> {
    pub(crate) mesh: CheckedMesh<'a>,
    pub(crate) order: &'a [u16],
    pub(crate) positions: &'a [u16],
    ghost ordered: { Ordered (as_lent mesh) order.now positions.now },
}

impl<'a> OrderedMesh<'a> {
    // The neighbours of the node at position i. O(1).
    pub(crate) fn neighbours(&self, i: usize) -> &'a [u16]
        requires { i < self.now.mesh.nodes }
        ensures { result.now ≡ neighbours_of (as_lent self.now.mesh) (get_or self.now.order.now i 0) }
    {
        self.mesh.list(self.order[i] as usize)
    }
}
