// Reading the trees of a region.
ghost use Rattle.std.specs.Prelude.{◌≡◌, ◌+◌};
ghost use Rattle.model.specs.Trees.{nodes};
ghost use Rattle.stored.specs.Words.{Stored, Stands, Standing};
ghost use Rattle.area.specs.Views.{view};
ghost use Rattle.editing.specs.Splitting.{Splits};

use area::{Area, Region};
use stored::{Node, seek};

// The name of the tree that stands at `at`.
pub(crate) fn name(area: &Area, of: Region, at: usize) -> u32
    requires { Standing (view area.now of) at }
    ensures { (s : Stored) → Stands (view area.now of) at s → result ≡ s.name }
{
    Node::at(area.part(of), at).name()
}

// The node behind that tree.
pub(crate) fn next(area: &Area, of: Region, at: usize) -> usize
    requires { Standing (view area.now of) at }
    ensures { (s : Stored) → Stands (view area.now of) at s → result ≡ at + nodes s.tree }
{
    at + Node::at(area.part(of), at).node_count()
}

// The children of a tree, split at a name: the smaller names stand up to the first number, and the larger ones from the second on, up to the end.
// Between them stands the child under the name, if there is one.
#[derive(Clone, Copy)]
pub(crate) struct Parts {
    pub(crate) up_to: usize,
    pub(crate) from_on: usize,
    pub(crate) end: usize,
}

// Splits the children of the tree that stands at `at`.
pub(crate) fn split(area: &Area, of: Region, at: usize, name: u32) -> Parts
    requires { Standing (view area.now of) at }
    ensures { (s : Stored) → Stands (view area.now of) at s → Splits at name s.tree result }
{
    let end = next(area, of, at);
    let (up_to, from_on) = match seek(area.part(of), at + 1, end, name) {
        Ok(found) => (found, next(area, of, found)),
        Err(stop) => (stop, stop),
    };
    Parts {
        up_to,
        from_on,
        end,
    }
}
