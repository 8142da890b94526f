// Three trees, one beside the other in an area, to be read.
ghost use Rattle.std.specs.Prelude.{◌≡◌, ℕ, take, Ok};
ghost use Rattle.refusals.specs.Output.{told, left};
ghost use Rattle.records.specs.Writing.{written};
ghost use Rattle.records.specs.Reading.{says};
ghost use Rattle.stored.specs.Nodes.{tree_held};
ghost use Rattle.text.specs.Report.{report};
ghost use Rattle.service.specs.Keeping.{region_of};
ghost use Rattle.service.specs.Service.{shown, pick, kind_of, wanted_of};

use crate::types::{Place, Shown};
use area::{Region, Table};
use records::TreeKind;
use refusals::Refusal;
use stored::Held;
use text::write_report;
use transfer::write;

impl Place {
    // The region of the tree for a table.
    fn region(self, table: Table) -> Region
        ensures { result ≡ region_of self table }
    {
        match self {
            Place::Own => Region::Tree(table),
            Place::Outcome => Region::New(table),
        }
    }
}

// The kind of the record file for a table.
// Both types are of other crates, so it cannot be a `From`.
fn kind(table: Table) -> TreeKind
    ensures { result ≡ kind_of table }
{
    match table {
        Table::Archive => TreeKind::Archive,
        _ => TreeKind::Copy,
    }
}

impl<'a> Shown<'a> {
    // One of the trees.
    pub(crate) fn tree(self, table: Table) -> Held<'a>
        ensures { tree_held result ≡ pick table (shown self.entry) }
    {
        let words = self.area.part(self.place.region(table));
        Held::new(words, self.sizes.get(table))
    }

    // Writes one of the trees as a record file.
    pub(crate) fn write_out(self, table: Table, out: &mut [u8]) -> Result<usize, Refusal>
        ensures answer { result ≡ told (written (pick table (shown self.entry)) (kind_of table)) out.old }
        ensures output { out.new ≡ left (written (pick table (shown self.entry)) (kind_of table)) out.old }
        ensures reads_back { (n : ℕ) → result ≡ Ok n → says (take n out.new) (wanted_of table) ≡ Ok (pick table (shown self.entry)) }
    {
        write(self.tree(table), kind(table), out)
    }

    // Writes the text report: the number of marks in the archive and the three trees.
    pub(crate) fn report(self, out: &mut [u8]) -> Result<usize, Refusal>
        ensures answer { result ≡ told (report (shown self.entry)) out.old }
        ensures output { out.new ≡ left (report (shown self.entry)) out.old }
    {
        let (field, bench) = (self.tree(Table::Field), self.tree(Table::Bench));
        write_report(self.tree(Table::Archive), field, bench, out)
    }
}
