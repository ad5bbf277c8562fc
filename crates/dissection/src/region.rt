// A region of a mesh.
ghost use Rattle.dissection.specs.Numbers.{Within};

use mesh::CheckedMesh;

// Some nodes of a mesh, ascending: those that are divided, or all.
#[derive(Clone, Copy)]
pub(crate) struct Region<'a> {
    pub(crate) mesh: CheckedMesh<'a>,
    pub(crate) nodes: &'a [u16],
    ghost within: { Within mesh.nodes nodes.now },
}
