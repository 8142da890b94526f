// Brings the tree of a record file into a region of an area.
#![tactic(auto)]

ghost use Rattle.std.specs.Prelude.{◌≡◌, ◌*◌, ◌≤◌, [], ◌∷◌, drop};
ghost use Rattle.model.specs.Trees.{nodes};
ghost use Rattle.records.specs.Views.{tree_of};
ghost use Rattle.stored.specs.Words.{emit};
ghost use Rattle.area.specs.Layout.{width};
ghost use Rattle.area.specs.Views.{view as words, limit, Only};

use area::{Area, Region};
use records::View;
use transfer::store;

// Stores the tree of a view at the front of a region; the words behind it stay.
pub fn bring(area: &mut Area, region: Region, view: View)
    requires { 3 * nodes (tree_of view) ≤ limit area.old * width region }
    ensures stored { words area.new region ≡ emit (tree_of view.entry) 0 (drop (3 * nodes (tree_of view.entry)) (words area.old region)) }
    ensures only { Only (region ∷ []) area.old area.new }
{
    // fixed memory: an area lends none of its words for writing, so the tree is put together here
    let mut tree = [0u32; 12288];
    store(view, &mut tree);
    let size = 3 * view.count();
    area.write(region, 0, &tree[0..size]);
}
