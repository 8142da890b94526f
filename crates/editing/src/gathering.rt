// The names of a node's children, gathered at the front of the names region.
ghost use Rattle.std.specs.Prelude.{◌≡◌, ◌+◌, ◌-◌, ◌*◌, ◌≤◌, not, T, [], ◌∷◌, ◌++◌, length, take, ◌==◌};
ghost use Rattle.model.specs.Trees.{Forest, names, insert, select};
ghost use Rattle.stored.specs.Words.{Stored, Stands, Standing, below};
ghost use Rattle.stored.specs.Lookup.{Between};
ghost use Rattle.area.specs.Views.{view, limit, Only};
ghost use Rattle.area.specs.declared.regions.Region.TheVariants.{Tree, Names};
ghost use Rattle.editing.specs.Regions.{holds_trees};

use super::reading::{name, next, split};
use area::{Area, Region, Table};

// Writes the names of the siblings that stand from `from` up to `end`, the first at index `first`, and says where the next would go.
fn list(area: &mut Area, of: Region, from: usize, end: usize, first: usize) -> usize
    requires trees { T (holds_trees of) }
    requires row { (f : Forest) × Between (view area.old of) from end f }
    requires room { first + (end - from) ≤ 2 * limit area.old }
    ensures many { (f : Forest) → Between (view area.old of) from end f → result ≡ first + length (names f) }
    ensures front { (f : Forest) → Between (view area.old of) from end f → take result (view area.new Names) ≡ take first (view area.old Names) ++ names f }
    ensures only { Only (Names ∷ []) area.old area.new }
{
    // Positions, and no iterator: it would borrow the area into which the names are written.
    let mut at = from;
    let mut i = first;
    while at < end {
        let here = name(area, of, at);
        area.set(Region::Names, i, here);
        i += 1;
        at = next(area, of, at);
    }
    i
}

// Gathers the names of the children of the tree that stands at `at`, and says how many they are.
pub fn gather(area: &mut Area, from: Region, at: usize) -> usize
    requires trees { T (holds_trees from) }
    requires stands { Standing (view area.old from) at }
    ensures many { (s : Stored) → Stands (view area.old from) at s → result ≡ length (names (below s.tree)) }
    ensures front { (s : Stored) → Stands (view area.old from) at s → take result (view area.new Names) ≡ names (below s.tree) }
    ensures only { Only (Names ∷ []) area.old area.new }
{
    let end = next(area, from, at);
    list(area, from, at + 1, end, 0)
}

// The same with one more name in its place, unless it is there already.
pub fn gather_with(area: &mut Area, table: Table, at: usize, added: u32) -> usize
    requires { Standing (view area.old (Tree table)) at }
    ensures many { (s : Stored) → Stands (view area.old (Tree table)) at s → result ≡ length (insert added (names (below s.tree))) }
    ensures front { (s : Stored) → Stands (view area.old (Tree table)) at s → take result (view area.new Names) ≡ insert added (names (below s.tree)) }
    ensures only { Only (Names ∷ []) area.old area.new }
{
    let tree = Region::Tree(table);
    let parts = split(area, tree, at, added);
    let k = list(area, tree, at + 1, parts.up_to, 0);
    area.set(Region::Names, k, added);
    list(area, tree, parts.from_on, parts.end, k + 1)
}

// The same with one name left out, if it is there.
pub fn gather_without(area: &mut Area, table: Table, at: usize, struck: u32) -> usize
    requires { Standing (view area.old (Tree table)) at }
    ensures many { (s : Stored) → Stands (view area.old (Tree table)) at s → result ≡ length (select (λ n. not (n == struck)) (names (below s.tree))) }
    ensures front { (s : Stored) → Stands (view area.old (Tree table)) at s → take result (view area.new Names) ≡ select (λ n. not (n == struck)) (names (below s.tree)) }
    ensures only { Only (Names ∷ []) area.old area.new }
{
    let tree = Region::Tree(table);
    let parts = split(area, tree, at, struck);
    let k = list(area, tree, at + 1, parts.up_to, 0);
    list(area, tree, parts.from_on, parts.end, k)
}
