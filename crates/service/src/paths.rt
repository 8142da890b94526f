// Where a path leads in a copy, and what the parent of its end allows.
ghost use Rattle.std.specs.Prelude.{◌≡◌, true, [], ◌∷◌, length, take};
ghost use Rattle.model.specs.Trees.{present, names, nodes, at as what_stands_at};
ghost use Rattle.records.specs.Reading.{passed};
ghost use Rattle.stored.specs.Words.{Stored, Stands, Standing, below};
ghost use Rattle.area.specs.Views.{view, Only};
ghost use Rattle.area.specs.declared.regions.Region.TheVariants.{Tree, Names};
ghost use Rattle.ledger.specs.Answers.{whose_of, copy, leads, parent_stands, parent_allows, last_name};
ghost use Rattle.service.specs.Service.{trees, Same};
ghost use Rattle.service.specs.Edits.{changed};

use crate::types::{Change, File};
use area::{Area, Region, Table};
use editing::{gather_with, gather_without, nodes_at, reach};
use ledger::Side;
use obeying::{allowed, class_at};
use refusals::{Reason, Refusal};
use rules::Rulebook;

// The most names of a path.
const MOST_NAMES: usize = 32;

// The names that a node will have, gathered at the front of the names region.
// A match of two cases: the contract of a closure in its place would have to tell what it gathers from every area, and is longer.
fn gather_changed(area: &mut Area, table: Table, at: usize, name: u32, change: Change) -> usize
    requires { Standing (view area.old (Tree table)) at }
    ensures many { (s : Stored) → Stands (view area.old (Tree table)) at s → result ≡ length (changed change name (names (below s.tree))) }
    ensures front { (s : Stored) → Stands (view area.old (Tree table)) at s → take result (view area.new Names) ≡ changed change name (names (below s.tree)) }
    ensures only { Only (Names ∷ []) area.old area.new }
{
    match change {
        Change::Put => gather_with(area, table, at, name),
        Change::Strike => gather_without(area, table, at, name),
    }
}

// A side and a path are two parameters, as they are in a call; a struct of both would be taken apart again in each body.
impl File {
    // The number of nodes of what stands at a path of a side's copy.
    pub(crate) fn nodes_at(&self, side: Side, path: &[u32]) -> usize
        ensures { result ≡ nodes (what_stands_at (copy side (trees self.now)) path.now) }
    {
        let (words, count) = self.copy(side);
        nodes_at(words, count, path)
    }

    // Whether something stands there.
    pub(crate) fn stands(&self, side: Side, path: &[u32]) -> bool
        ensures { result ≡ present (what_stands_at (copy side (trees self.now)) path.now) }
    {
        self.nodes_at(side, path) > 0
    }

    // Whether the parent of the end of a path stands; the empty path has none and needs none.
    pub(crate) fn has_parent(&self, side: Side, path: &[u32]) -> bool
        ensures { result ≡ parent_stands (copy side (trees self.now)) path.now }
    {
        let Some((_, parent)) = path.split_last() else {
            return true;
        };
        self.stands(side, parent)
    }

    // Refuses a path that is too long, or one that does not lead to what must stand for an edit.
    pub(crate) fn lead(&self, side: Side, path: &[u32], there: bool) -> Result<(), Refusal>
        ensures { result ≡ passed tt (leads (whose_of side) (copy side (trees self.now)) path.now there) }
    {
        if path.len() > MOST_NAMES {
            return Err(Reason::Path.refuse(side.into(), MOST_NAMES));
        }
        if there {
            return Ok(());
        }
        let (words, count) = self.copy(side);
        Err(Reason::Path.refuse(side.into(), reach(words, count, path).names))
    }

    // Refuses an edit after which the names of the parent are not allowed.
    pub(crate) fn parent_allows<R: Rulebook>(
        &mut self,
        rules: &R,
        side: Side,
        path: &[u32],
        change: Change,
    ) -> Result<(), Refusal>
        requires { parent_stands (copy side (trees self.old)) path.now ≡ true }
        ensures answer { result ≡ passed tt (parent_allows (R.meaning rules.now) (whose_of side) (copy side (trees self.old)) path.now (changed change (last_name path.now))) }
        ensures same { Same self.old self.new }
    {
        let Some((last, parent)) = path.split_last() else {
            return Ok(());
        };
        let (words, count) = self.copy(side);
        let at = reach(words, count, parent).at;
        let many = gather_changed(&mut self.area, side.into(), at, *last, change);
        let class = class_at(rules, parent);
        if allowed(rules, class, &self.area.part(Region::Names)[..many]) {
            return Ok(());
        }
        Err(Reason::Edit.refuse(side.into(), parent.len()))
    }
}
