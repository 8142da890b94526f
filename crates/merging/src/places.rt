// Where the trees of one name stand, and the step to take there.
ghost use Rattle.std.specs.Prelude.{◌≡◌, ℕ, ◌+◌, ◌<◌, ◌≤◌, List, if◌then◌else◌};
ghost use Rattle.model.specs.Trees.{Tree, Forest, names, Ascends, nodes, nodes_all, is_mark, same as same_trees};
ghost use Rattle.model.specs.Round.{first_five};
ghost use Rattle.stored.specs.Words.{Holds};
ghost use Rattle.stored.specs.Lookup.{Between, at_of, is_found};
ghost use Rattle.area.specs.Views.{view};
ghost use Rattle.tables.specs.declared.Table.TheVariants.{Archive, Field, Bench};
ghost use Rattle.area.specs.declared.regions.Region.TheVariants.{Tree as Old};
ghost use Rattle.merging.specs.Tables.{At, spot as spot_of, sources};
ghost use Rattle.tables.specs.Pick.{each};
ghost use Rattle.merging.specs.Steps.{verdict};
ghost use Rattle.merging.specs.Looking.{Finds, Lies, Least, Seen, Looked};

use crate::types::{Here, Sizes, Step};
use area::{Area, Region, Table};
use stored::{Node, Spot, seek};
use tables::Three;

// Whether two tables have the same tree at two places, or both have none there.
pub fn alike(area: &Area, s: Table, x: Spot, t: Table, y: Spot) -> bool
    requires { (j k : ℕ) × (a b : Tree) × At (view area.now (Old s)) j x a × At (view area.now (Old t)) k y b }
    ensures { (j k : ℕ) (a b : Tree) → At (view area.now (Old s)) j x a → At (view area.now (Old t)) k y b → result ≡ same_trees a b }
{
    let (xs, ys) = (area.part(Region::Tree(s)), area.part(Region::Tree(t)));
    match (x, y) {
        (Ok(i), Ok(j)) => Node::at(xs, i).same(Node::at(ys, j)),
        (Err(_), Err(_)) => true,
        (Ok(_), Err(_)) | (Err(_), Ok(_)) => false,
    }
}

// Whether the archive has a mark at a place.
pub fn marked(area: &Area, x: Spot) -> bool
    requires { (k : ℕ) × (a : Tree) × At (view area.now (Old Archive)) k x a }
    ensures { (k : ℕ) (a : Tree) → At (view area.now (Old Archive)) k x a → result ≡ is_mark a }
{
    match x {
        Ok(at) => Node::at(area.part(Region::Tree(Table::Archive)), at).is_mark(),
        Err(_) => false,
    }
}

// The first of the steps that fits.
pub fn choose(area: &Area, here: Here) -> Step
    requires { (ts : Table → Tree) × Finds area.now here ts }
    ensures { (ts : Table → Tree) → Finds area.now here ts → first_five (ts Archive) (ts Field) (ts Bench) ≡ verdict result (ts Field) (ts Bench) }
{
    if alike(
        area,
        Table::Field,
        here.places.field,
        Table::Bench,
        here.places.bench,
    ) {
        return Step::Agreed;
    }
    if alike(
        area,
        Table::Field,
        here.places.field,
        Table::Archive,
        here.places.archive,
    ) {
        return Step::TakeBench;
    }
    if alike(
        area,
        Table::Bench,
        here.places.bench,
        Table::Archive,
        here.places.archive,
    ) {
        return Step::TakeField;
    }
    if marked(area, here.places.archive) {
        return Step::Mark;
    }
    match (here.places.field, here.places.bench) {
        (Ok(_), Ok(_)) => Step::Down,
        _ => Step::Mark,
    }
}

// The number of the node at which a lookup stopped.
pub fn place(x: Spot) -> usize
    ensures { result ≡ at_of x }
{
    match x {
        Ok(at) | Err(at) => at,
    }
}

// The node behind the tree at a place, or the place itself where there is none.
pub fn past(area: &Area, t: Table, x: Spot) -> usize
    requires { (k : ℕ) × (a : Tree) × At (view area.now (Old t)) k x a }
    ensures { (k : ℕ) (a : Tree) → At (view area.now (Old t)) k x a → result ≡ at_of x + nodes a }
{
    match x {
        Ok(at) => at + Node::at(area.part(Region::Tree(t)), at).node_count(),
        Err(at) => at,
    }
}

// The same for all tables.
pub fn past_all(area: &Area, here: Here) -> Sizes
    requires { (ts : Table → Tree) × Finds area.now here ts }
    ensures { (ts : Table → Tree) → Finds area.now here ts → result ≡ each (λ t. at_of (spot_of t here) + nodes (ts t)) }
{
    Sizes {
        archive: past(area, Table::Archive, here.places.archive),
        field: past(area, Table::Field, here.places.field),
        bench: past(area, Table::Bench, here.places.bench),
    }
}

// The first node below a place, or the place itself where there is none.
pub fn inside(x: Spot) -> usize
    requires { at_of x ≤ 4096 }
    ensures { result ≡ at_of x + (if is_found x then 1 else 0) }
{
    match x {
        Ok(at) => at + 1,
        Err(at) => at,
    }
}

// Where a whole tree of so many nodes stands.
pub fn whole(count: usize) -> Spot
    ensures first { at_of result ≡ 0 }
    ensures here { (ws : List ℕ) (t : Tree) → Holds ws count t → At ws 0 result t }
{
    if count > 0 { Ok(0) } else { Err(0) }
}

// The lower of the names that are next in both copies.
pub fn next_name(area: &Area, at: Sizes, ends: Sizes) -> u32
    requires { (left : Table → Forest) × Lies (sources area.now) at ends left × (0 < nodes_all (left Field) + nodes_all (left Bench)) }
    ensures { (left : Table → Forest) → Lies (sources area.now) at ends left → Least result (left Field) (left Bench) }
{
    if at.field == ends.field {
        return Node::at(area.part(Region::Tree(Table::Bench)), at.bench).name();
    }
    let name = Node::at(area.part(Region::Tree(Table::Field)), at.field).name();
    if at.bench == ends.bench {
        return name;
    }
    name.min(Node::at(area.part(Region::Tree(Table::Bench)), at.bench).name())
}

// Looks a name up among the siblings that stand in a table from `from` up to `end`.
pub fn lookup(area: &Area, t: Table, from: usize, end: usize, name: u32) -> Spot
    requires { (f : Forest) × Between (sources area.now t) from end f }
    ensures { (f : Forest) → Between (sources area.now t) from end f → Ascends (names f) → Seen (sources area.now t) from end name f result }
{
    seek(area.part(Region::Tree(t)), from, end, name)
}

// Looks the next name of both copies up in each table.
pub fn look(area: &Area, at: Sizes, ends: Sizes) -> Here
    requires { (left : Table → Forest) × Lies (sources area.now) at ends left × (0 < nodes_all (left Field) + nodes_all (left Bench)) }
    ensures { (left : Table → Forest) → Lies (sources area.now) at ends left → ((t : Table) → Ascends (names (left t))) → Looked area.now at ends left result }
{
    let name = next_name(area, at, ends);
    Here {
        name,
        places: Three {
            archive: lookup(area, Table::Archive, at.archive, ends.archive, name),
            field: lookup(area, Table::Field, at.field, ends.field, name),
            bench: lookup(area, Table::Bench, at.bench, ends.bench, name),
        },
    }
}
