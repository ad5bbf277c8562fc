// Pairs of meshes joined by the proved joining and by `naive`, which is written apart from it: counts the answers, and where the two differ in an
// answer or in any entry of a lent list, written or not. Many answers are known by how the meshes and the pairs are made, and counted where they are
// not given.
// What could not fail here: a misreading of document 02's sentence that both share, save where an answer is known; joined meshes of over 127 nodes
// other than those of rings.
// Cost: a fixed run; every function is polynomial in the lengths of what it is lent.
#![tactic(auto)]

mod buffers;
mod counts;
mod drawn;
mod faults;
mod given;
mod large;
mod lent;
mod made;
mod pairs;
mod trial;

use crate::counts::Counts;
use crate::lent::Lists;
use std::io;

fn main(rt: HostRuntime) -> io::Result<()> {
    let mut lists = Lists::new();
    let mut c = Counts::new();
    given::all(&mut c, &mut lists);
    drawn::all(&mut c, &mut lists);
    faults::all(&mut c, &mut lists);
    large::all(&mut c, &mut lists);
    c.print(&rt)
}
