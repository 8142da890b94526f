// The copies of a file, held to a rulebook.
ghost use Rattle.std.specs.Prelude.{◌≡◌, Some};
ghost use Rattle.records.specs.Reading.{passed};
ghost use Rattle.stored.specs.Words.{Holds};
ghost use Rattle.obeying.specs.Lawful.{lawful};
ghost use Rattle.area.specs.Views.{view};
ghost use Rattle.area.specs.declared.regions.Region.TheVariants.{Tree};
ghost use Rattle.ledger.specs.Answers.{whose_of, table_of, copy, both_obey};
ghost use Rattle.service.specs.Service.{trees, Same};

use crate::types::File;
use area::Region;
use editing::first_unlawful;
use ledger::Side;
use refusals::{Reason, Refusal};
use rules::Rulebook;

impl File {
    // The words of a side's copy, and its number of nodes.
    pub(crate) fn copy(&self, side: Side) -> (&[u32], usize)
        ensures words { result.0.now ≡ view self.now.area (Tree (table_of side)) }
        ensures holds { Holds result.0.now result.1 (copy side (trees self.now)) }
    {
        let table = side.into();
        (self.area.part(Region::Tree(table)), self.sizes.get(table))
    }

    // Holds one copy to the rulebook.
    fn obey<R: Rulebook>(&mut self, rules: &R, side: Side) -> Result<(), Refusal>
        ensures answer { result ≡ passed tt (lawful (R.meaning rules.now) (Some 0) (whose_of side) (copy side (trees self.old))) }
        ensures same { Same self.old self.new }
    {
        let table = side.into();
        match first_unlawful(rules, &mut self.area, table, self.sizes.get(table)) {
            Some(node) => Err(Reason::Disobeys.refuse(side.into(), node)),
            None => Ok(()),
        }
    }

    // Holds both copies to the rulebook, the field's first.
    pub(crate) fn both_obey<R: Rulebook>(&mut self, rules: &R) -> Result<(), Refusal>
        ensures answer { result ≡ passed tt (both_obey (R.meaning rules.now) (trees self.old)) }
        ensures same { Same self.old self.new }
    {
        self.obey(rules, Side::Field)?;
        self.obey(rules, Side::Bench)
    }
}
