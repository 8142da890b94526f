// Edits of a tree: the tree that a table is to hold next is the one that it holds, with another subtree at a path.
ghost use Rattle.std.specs.Prelude.{◌≡◌, ◌+◌, ◌-◌, ◌*◌, ◌≤◌, false, [], ◌∷◌, ◌++◌, take};
ghost use Rattle.model.specs.Trees.{Tree as Trees, nodes, nodes_all, marks};
ghost use Rattle.model.specs.Edits.{set_at};
ghost use Rattle.stored.specs.Words.{tree_word, emit, emits, below, Stored, Stands, Holds};
ghost use Rattle.stored.specs.Lookup.{smaller};
ghost use Rattle.area.specs.Views.{view, limit as limit_in, among, Only};
ghost use Rattle.area.specs.declared.regions.Region.TheVariants.{Tree, New};
ghost use Rattle.editing.specs.Splicing.{Offers, Given, Edited};

use super::reaching::nodes_at;
use super::reading::split;
use area::{Area, Region, Table};

// Copies the node at `at` and the children before a name to the next tree, counts `grown` nodes more and `gone` nodes less for it, and says where
// the copy ends.
fn descend(area: &mut Area, table: Table, at: usize, name: u32, grown: usize, gone: usize) -> usize
    requires { (s : Stored) × Stands (view area.old (Tree table)) at s × (gone ≤ nodes s.tree + grown) × (grown ≤ 65536) }
    ensures end { (s : Stored) → Stands (view area.old (Tree table)) at s → result ≡ at + 1 + nodes_all (smaller name (below s.tree)) }
    ensures words { (s : Stored) → Stands (view area.old (Tree table)) at s → marks s.tree ≡ 0 → take (3 * result) (view area.new (New table)) ≡ take (3 * at) (view area.old (New table)) ++ s.name ∷ (nodes s.tree + grown - gone) ∷ tree_word ∷ emits (smaller name (below s.tree)) [] }
    ensures only { Only (New table ∷ []) area.old area.new }
{
    let (tree, new) = (Region::Tree(table), Region::New(table));
    let parts = split(area, tree, at, name);
    area.copy(tree, 3 * at, new, 3 * at, 3 * (parts.up_to - at));
    area.set(new, 3 * at + 1, (parts.end - at + grown - gone) as u32);
    parts.up_to
}

// Copies the tree of `grown` nodes at the front of a region to `at` of the next tree, under another name. A tree of no nodes is none.
fn plant(area: &mut Area, table: Table, at: usize, name: u32, source: Region, grown: usize)
    requires offer { (u : Trees) × Offers (view area.old source) grown u }
    requires room { at + grown ≤ 2 * limit_in area.old }
    ensures words { (u : Trees) → Offers (view area.old source) grown u → take (3 * (at + grown)) (view area.new (New table)) ≡ take (3 * at) (view area.old (New table)) ++ emit u name [] }
    ensures only { Only (New table ∷ []) area.old area.new }
{
    let new = Region::New(table);
    area.copy(source, 0, new, 3 * at, 3 * grown);
    if grown > 0 {
        area.set(new, 3 * at, name);
    }
}

// Writes the next tree of a table: its tree of `count` nodes, with the tree of `grown` nodes at the front of `source` at the path, or with nothing
// there where `grown` is 0. Says how many nodes it has.
pub fn splice(
    area: &mut Area,
    table: Table,
    count: usize,
    path: &[u32],
    source: Region,
    grown: usize,
) -> usize
    requires apart { among source (New table ∷ []) ≡ false }
    requires given { (t u : Trees) × Given area.old table count path.now source grown t u }
    ensures number { (t u : Trees) → Given area.old table count path.now source grown t u → result ≡ nodes (set_at t path.now u) }
    ensures words { (t u : Trees) → Given area.old table count path.now source grown t u → take (3 * result) (view area.new (New table)) ≡ emit (set_at t path.now u) 0 [] }
    ensures only { Only (New table ∷ []) area.old area.new }
{
    let (tree, new) = (Region::Tree(table), Region::New(table));
    let gone = nodes_at(area.part(tree), count, path);
    let mut at = 0;
    for name in path {
        at = descend(area, table, at, *name, grown, gone);
    }
    plant(area, table, at, path[path.len() - 1], source, grown);
    let behind = at + gone;
    area.copy(
        tree,
        3 * behind,
        new,
        3 * (at + grown),
        3 * (count - behind),
    );
    count + grown - gone
}

// The same at a path of any length: at the empty path the whole tree is replaced, or taken away.
pub fn edit(
    area: &mut Area,
    table: Table,
    count: usize,
    path: &[u32],
    source: Region,
    grown: usize,
) -> usize
    requires apart { among source (New table ∷ []) ≡ false }
    requires given { (t u : Trees) × Edited area.old table count path.now source grown t u }
    ensures number { (t u : Trees) → Edited area.old table count path.now source grown t u → result ≡ nodes (set_at t path.now u) }
    ensures words { (t u : Trees) → Edited area.old table count path.now source grown t u → take (3 * result) (view area.new (New table)) ≡ emit (set_at t path.now u) 0 [] }
    ensures only { Only (New table ∷ []) area.old area.new }
{
    if path.len() == 0 {
        plant(area, table, 0, 0, source, grown);
        return grown;
    }
    splice(area, table, count, path, source, grown)
}

// Makes the next tree of a table, of `count` nodes, the tree that it holds.
pub fn adopt(area: &mut Area, table: Table, count: usize)
    requires { count ≤ limit_in area.old }
    ensures words { take (3 * count) (view area.new (Tree table)) ≡ take (3 * count) (view area.old (New table)) }
    ensures held { (t : Trees) → Holds (view area.old (New table)) count t → Holds (view area.new (Tree table)) count t }
    ensures only { Only (Tree table ∷ []) area.old area.new }
{
    area.copy(Region::New(table), 0, Region::Tree(table), 0, 3 * count);
}
