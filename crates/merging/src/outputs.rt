// Writing the new trees.
ghost use Rattle.std.specs.Prelude.{◌≡◌, ℕ, ◌+◌, ◌*◌, ◌<◌, ◌≤◌, [], ◌∷◌, ◌++◌, take};
ghost use Rattle.model.specs.Trees.{Tree, node, Forest, nodes};
ghost use Rattle.area.specs.Views.{view, limit, Only};
ghost use Rattle.tables.specs.declared.Table.TheVariants.{Archive, Field, Bench};
ghost use Rattle.area.specs.declared.regions.Region.TheVariants.{Tree as Old, New};
ghost use Rattle.merging.specs.Tables.{At, tree_of};
ghost use Rattle.tables.specs.Pick.{pick};
ghost use Rattle.merging.specs.Steps.{made, source_of};
ghost use Rattle.merging.specs.Looking.{Finds};
ghost use Rattle.merging.specs.Outputs.{Grown, Opened};

use crate::types::{Here, Sizes, Step};
use area::{Area, Region, Table};
use stored::{Node, Spot};

// The table whose tree a step puts into another, or none where it puts a mark.
pub fn source(step: Step, to: Table) -> Option<Table>
    ensures { result ≡ source_of step to }
{
    match step {
        Step::TakeBench => Some(Table::Bench),
        Step::TakeField => Some(Table::Field),
        Step::Agreed => match to {
            Table::Bench => Some(Table::Bench),
            _ => Some(Table::Field),
        },
        _ => match to {
            Table::Archive => None,
            _ => Some(to),
        },
    }
}

// Copies the tree at a place of one table behind the first `at` nodes that are written for another.
pub fn put(area: &mut Area, from: Table, x: Spot, to: Table, at: usize) -> usize
    requires { (k : ℕ) × (a : Tree) × At (view area.old (Old from)) k x a × (at + nodes a ≤ limit area.old * 2) }
    ensures grows { (k : ℕ) (a : Tree) → At (view area.old (Old from)) k x a → Grown (view area.old (New to)) (view area.new (New to)) at result k a }
    ensures only { Only (New to ∷ []) area.old area.new }
{
    let Ok(place) = x else {
        return at;
    };
    let count = Node::at(area.part(Region::Tree(from)), place).node_count();
    let (source, target) = (Region::Tree(from), Region::New(to));
    area.copy(source, 3 * place, target, 3 * at, 3 * count);
    at + count
}

// Writes one node: three words of the fixed memory, the kind as it stands there.
pub fn put_node(area: &mut Area, to: Table, at: usize, name: u32, count: u32, kind: u32) -> usize
    requires { at < limit area.old * 2 }
    ensures end { result ≡ at + 1 }
    ensures words { take (3 * result) (view area.new (New to)) ≡ take (3 * at) (view area.old (New to)) ++ name ∷ count ∷ kind ∷ [] }
    ensures only { Only (New to ∷ []) area.old area.new }
{
    let words = [name, count, kind];
    area.write(Region::New(to), 3 * at, &words);
    at + 1
}

// Writes what a step makes of a place for one table.
pub fn put_settled(area: &mut Area, here: Here, step: Step, to: Table, at: usize) -> usize
    requires { (ts : Table → Tree) × Finds area.old here ts × (at + nodes (tree_of to (made step (ts Field) (ts Bench))) ≤ limit area.old * 2) }
    ensures grows { (ts : Table → Tree) → Finds area.old here ts → Grown (view area.old (New to)) (view area.new (New to)) at result here.name (tree_of to (made step (ts Field) (ts Bench))) }
    ensures only { Only (New to ∷ []) area.old area.new }
{
    match source(step, to) {
        Some(from) => put(area, from, here.places.get(from), to, at),
        None => put_node(area, to, at, here.name, 1, 1),
    }
}

// Writes what a step makes of a place, and gives the nodes that are written then.
pub fn settle(area: &mut Area, here: Here, step: Step, new: Sizes) -> Sizes
    requires { (ts : Table → Tree) × Finds area.old here ts × ((t : Table) → pick t new + nodes (tree_of t (made step (ts Field) (ts Bench))) ≤ limit area.old * 2) }
    ensures grows { (ts : Table → Tree) → Finds area.old here ts → (t : Table) → Grown (view area.old (New t)) (view area.new (New t)) (pick t new) (pick t result) here.name (tree_of t (made step (ts Field) (ts Bench))) }
    ensures only { Only (New Archive ∷ New Field ∷ New Bench ∷ []) area.old area.new }
{
    Sizes {
        archive: put_settled(area, here, step, Table::Archive, new.archive),
        field: put_settled(area, here, step, Table::Field, new.field),
        bench: put_settled(area, here, step, Table::Bench, new.bench),
    }
}

// Writes a node for each table whose children are still to come.
pub fn open_all(area: &mut Area, name: u32, new: Sizes) -> Sizes
    requires { (t : Table) → pick t new < limit area.old * 2 }
    ensures ends { (t : Table) → pick t result ≡ pick t new + 1 }
    ensures words { (t : Table) → take (3 * pick t result) (view area.new (New t)) ≡ take (3 * pick t new) (view area.old (New t)) ++ name ∷ 0 ∷ 0 ∷ [] }
    ensures only { Only (New Archive ∷ New Field ∷ New Bench ∷ []) area.old area.new }
{
    Sizes {
        archive: put_node(area, Table::Archive, new.archive, name, 0, 0),
        field: put_node(area, Table::Field, new.field, name, 0, 0),
        bench: put_node(area, Table::Bench, new.bench, name, 0, 0),
    }
}

// Gives the open node at `at` its count, now that its children end at `to`.
pub fn seal(area: &mut Area, t: Table, at: usize, to: usize)
    requires { (k : ℕ) × (done : Forest) × Opened (view area.old (New t)) at to k done }
    ensures grows { (k : ℕ) (done : Forest) → Opened (view area.old (New t)) at to k done → Grown (view area.old (New t)) (view area.new (New t)) at to k (node done) }
    ensures only { Only (New t ∷ []) area.old area.new }
{
    area.set(Region::New(t), 3 * at + 1, (to - at) as u32);
}

// The same for the nodes of all tables.
pub fn seal_all(area: &mut Area, at: Sizes, to: Sizes)
    requires { (k : ℕ) × (done : Table → Forest) × ((t : Table) → Opened (view area.old (New t)) (pick t at) (pick t to) k (done t)) }
    ensures grows { (k : ℕ) (done : Table → Forest) → ((t : Table) → Opened (view area.old (New t)) (pick t at) (pick t to) k (done t)) → (t : Table) → Grown (view area.old (New t)) (view area.new (New t)) (pick t at) (pick t to) k (node (done t)) }
    ensures only { Only (New Archive ∷ New Field ∷ New Bench ∷ []) area.old area.new }
{
    seal(area, Table::Archive, at.archive, to.archive);
    seal(area, Table::Field, at.field, to.field);
    seal(area, Table::Bench, at.bench, to.bench);
}
