// Writing a copy of a file anew.
ghost use Rattle.std.specs.Prelude.{◌≡◌};
ghost use Rattle.model.specs.Trees.{Tree as TheTree};
ghost use Rattle.records.specs.Views.{tree_of};
ghost use Rattle.ledger.specs.Answers.{told, left};
ghost use Rattle.service.specs.Service.{trees, limit};
ghost use Rattle.service.specs.Edits.{edited, replaced, Renews, Replaces};

use crate::types::File;
use area::{Region, Table};
use editing::{adopt, edit};
use intake::bring;
use ledger::Side;
use records::View;
use refusals::{Reason, Refusal};

impl File {
    // Writes the copy of a side anew: with the tree of `grown` nodes at the front of the archive's next tree at a path, or with nothing there where
    // `grown` is 0.
    pub(crate) fn renew(&mut self, side: Side, path: &[u32], grown: usize)
        requires { (u : TheTree) × Renews self.old side path.now grown u }
        ensures state { (u : TheTree) → Renews self.old side path.now grown u → trees self.new ≡ edited (trees self.old) side path.now u }
        ensures limit { limit self.new ≡ limit self.old }
    {
        let table = side.into();
        let count = self.sizes.get(table);
        let new = edit(
            &mut self.area,
            table,
            count,
            path,
            Region::New(Table::Archive),
            grown,
        );
        adopt(&mut self.area, table, new);
        match side {
            Side::Field => self.sizes.field = new,
            Side::Bench => self.sizes.bench = new,
        }
    }

    // Sets the tree of a record file at a path of a side's copy, unless the copy would have too many nodes.
    pub(crate) fn replace(&mut self, side: Side, path: &[u32], view: View) -> Result<(), Refusal>
        requires { Replaces self.old side path.now (tree_of view) }
        ensures answer { result ≡ told (replaced (limit self.old) (trees self.old) side path.now (tree_of view.entry)) }
        ensures state { trees self.new ≡ left (trees self.old) (replaced (limit self.old) (trees self.old) side path.now (tree_of view.entry)) }
        ensures limit { limit self.new ≡ limit self.old }
    {
        let count = self.sizes.get(side.into());
        let grown = view.count();
        let new = count + grown - self.nodes_at(side, path);
        if new > self.area.limit() {
            return Err(Reason::Crowded.refuse(side.into(), new));
        }
        bring(&mut self.area, Region::New(Table::Archive), view);
        self.renew(side, path, grown);
        Ok(())
    }
}
