// Matrix Market texts, made and damaged, read by the proved reader and by `naive`, which is written apart from it: counts the answers, and where the
// two differ in an answer or in any entry of a lent list, written or not. The file `stdin` has the texts whose answers are known, and tells its form.
// What could not fail here: a misreading of document 02's sentence that both readers share, save where an answer is known; texts and lines of over
// 4,096 bytes other than those of `ring`; meshes of over 79 nodes or over 1,400 entries other than the rings that are accepted; a reader that moves
// stale numbers about in what is not used, since they are all the same.
// Cost: a fixed run; every function is polynomial in the lengths of what it is lent.
#![tactic(auto)]

mod counts;
mod damage;
mod draft;
mod drawn;
mod given;
mod hub;
mod ring;
mod style;
mod text;
mod trial;

use crate::counts::Counts;
use input::read_full;
use std::io;

// Of the input the first 65,536 bytes are read.
fn main(rt: HostRuntime) -> io::Result<()> {
    let mut input = [0u8; 65536];
    let length = read_full(&mut rt.stdin(), &mut input)?;
    let mut c = Counts::new();
    given::all(&mut c, &input[..length]);
    drawn::all(&mut c);
    c.print(&rt)
}
