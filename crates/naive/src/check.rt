// Checks 1 to 7, with 26 between 6 and 7, each over the whole mesh before the next, and the matrix of a mesh that passes them.
use crate::given::NodeLists;
use crate::lists::{ascending, nodes_in};
use crate::refused::{Refused, refused_if};

// The most entries of a list.
pub(crate) const NEIGHBOURS: usize = 26;

// Whether v stands in the list.
fn lists(list: &[u16], v: usize) -> bool {
    list.iter().any(|w| usize::from(*w) == v)
}

// Whether a node of v's list has a list without v.
fn one_sided(mesh: NodeLists, v: usize, list: &[u16]) -> bool {
    list.iter().any(|w| !lists(mesh.list(usize::from(*w)), v))
}

// The first of the checks that look at entries that fails.
fn check_lists(mesh: NodeLists) -> Result<(), Refused> {
    let n = mesh.nodes;
    refused_if(mesh.entries.iter().any(|w| n <= usize::from(*w)), 4)?;
    refused_if(mesh.some_list(|v, list| lists(list, v)), 5)?;
    refused_if(mesh.some_list(|_, list| !ascending(list)), 6)?;
    refused_if(mesh.some_list(|_, list| NEIGHBOURS < list.len()), 26)?;
    refused_if(mesh.some_list(|v, list| one_sided(mesh, v, list)), 7)
}

// The first check that fails.
pub(crate) fn check_mesh(mesh: NodeLists) -> Result<(), Refused> {
    let entries = mesh.entries.len();
    refused_if(mesh.nodes_fail(), 1)?;
    refused_if(mesh.starts_fail() || mesh.start(mesh.nodes) != entries, 2)?;
    refused_if(65536 < entries, 3)?;
    check_lists(mesh)
}

pub(crate) fn matrix(mesh: NodeLists) -> [u64; 64] {
    let mut m = [0u64; 64];
    for (v, row) in m.iter_mut().enumerate() {
        *row = nodes_in(mesh.list(v));
    }
    m
}
