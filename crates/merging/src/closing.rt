// Closing a node whose children are all merged.
ghost use Rattle.std.specs.Prelude.{◌≡◌, ℕ, ◌+◌, ◌*◌, ◌≤◌, ◌&&◌, [], ◌∷◌, take, Ok};
ghost use Rattle.model.specs.Trees.{Tree, mark, Forest, names, nodes};
ghost use Rattle.model.specs.Meaning.{allowed as is_allowed};
ghost use Rattle.model.specs.Round.{outcome};
ghost use Rattle.area.specs.Views.{view, limit, Only};
ghost use Rattle.tables.specs.declared.Table.TheVariants.{Archive, Field, Bench};
ghost use Rattle.area.specs.declared.regions.Region.TheVariants.{New, Names};
ghost use Rattle.merging.specs.Tables.{At, tree_of, sources};
ghost use Rattle.tables.specs.Pick.{pick};
ghost use Rattle.merging.specs.Outputs.{Grown, Listing};
ghost use Rattle.merging.specs.Levels.{Level, sealed};
ghost use Rattle.merging.specs.Going.{Closing};

use crate::outputs::{seal_all, settle};
use crate::types::{Frame, Here, Sizes, Step};
use area::{Area, Region, Table};
use obeying::allowed;
use rules::Rulebook;
use stored::Node;
use tables::Three;

// Puts the names of the children of a written node into the region for names, and gives their number.
pub fn gather(area: &mut Area, t: Table, at: usize, end: usize) -> usize
    requires { (f : Forest) × Listing (view area.old (New t)) at end f }
    ensures front { (f : Forest) → Listing (view area.old (New t)) at end f → take result (view area.new Names) ≡ names f }
    ensures room { result ≤ limit area.new * 2 }
    ensures only { Only (Names ∷ []) area.old area.new }
{
    let mut pos = at + 1;
    let mut count = 0;
    // A loop of its own: what is being written is not yet known to be a tree, as a `Node` is.
    while pos < end {
        let name = area.get(Region::New(t), 3 * pos);
        area.set(Region::Names, count, name);
        count += 1;
        pos += area.get(Region::New(t), 3 * pos + 1) as usize;
    }
    count
}

// Whether the names of the children of a written node are allowed.
pub fn names_allowed<R: Rulebook>(
    rules: &R,
    area: &mut Area,
    class: Option<u32>,
    t: Table,
    at: usize,
    end: usize,
) -> bool
    requires { (f : Forest) × Listing (view area.old (New t)) at end f }
    ensures answer { (f : Forest) → Listing (view area.old (New t)) at end f → result ≡ is_allowed (R.meaning rules.now) class (names f) }
    ensures only { Only (Names ∷ []) area.old area.new }
{
    let count = gather(area, t, at, end);
    allowed(rules, class, &area.part(Region::Names)[..count])
}

// Whether that holds of both copies of a node.
pub fn both_allowed<R: Rulebook>(rules: &R, area: &mut Area, frame: Frame, new: Sizes) -> bool
    requires { (f g : Forest) × Listing (view area.old (New Field)) frame.new.field new.field f × Listing (view area.old (New Bench)) frame.new.bench new.bench g }
    ensures answer { (f g : Forest) → Listing (view area.old (New Field)) frame.new.field new.field f → Listing (view area.old (New Bench)) frame.new.bench new.bench g → result ≡ (is_allowed (R.meaning rules.now) frame.class (names f) && is_allowed (R.meaning rules.now) frame.class (names g)) }
    ensures only { Only (Names ∷ []) area.old area.new }
{
    let (class, at) = (frame.class, frame.new);
    if !names_allowed(rules, area, class, Table::Field, at.field, new.field) {
        return false;
    }
    names_allowed(rules, area, class, Table::Bench, at.bench, new.bench)
}

// Writes a mark for the archive in place of a node, and both copies of it as they came.
pub fn roll_back(area: &mut Area, frame: Frame) -> Sizes
    requires { (k : ℕ) × (a b : Tree) × At (sources area.old Field) k (Ok frame.field) a × At (sources area.old Bench) k (Ok frame.bench) b × ((t : Table) → pick t frame.new + (nodes a + nodes b) ≤ limit area.old * 2) }
    ensures grows { (k : ℕ) (a b : Tree) → At (sources area.old Field) k (Ok frame.field) a → At (sources area.old Bench) k (Ok frame.bench) b → (t : Table) → Grown (view area.old (New t)) (view area.new (New t)) (pick t frame.new) (pick t result) k (tree_of t (outcome mark a b)) }
    ensures only { Only (New Archive ∷ New Field ∷ New Bench ∷ []) area.old area.new }
{
    let here = Here {
        name: Node::at(area.part(Region::Tree(Table::Field)), frame.field).name(),
        places: Three {
            archive: Err(0),
            field: Ok(frame.field),
            bench: Ok(frame.bench),
        },
    };
    settle(area, here, Step::Mark, frame.new)
}

// Closes a node whose children are all done: what was written stands if the names of both copies are allowed.
pub fn close<R: Rulebook>(rules: &R, area: &mut Area, frame: Frame, new: Sizes) -> Sizes
    requires { (lv : Level) × Closing area.old frame new lv }
    ensures grows { (lv : Level) → Closing area.old frame new lv → (t : Table) → Grown (view area.old (New t)) (view area.new (New t)) (pick t frame.new) (pick t result) lv.name (tree_of t (sealed (R.meaning rules.now) frame.class lv.one lv.two lv.done)) }
    ensures only { Only (New Archive ∷ New Field ∷ New Bench ∷ Names ∷ []) area.old area.new }
{
    seal_all(area, frame.new, new);
    if both_allowed(rules, area, frame, new) {
        new
    } else {
        roll_back(area, frame)
    }
}
