// How many leading names of a path lead to nodes, and where the last of these nodes stands; the root stands at 0.
#[derive(Clone, Copy)]
pub struct Reach {
    pub names: usize,
    pub at: usize,
}
