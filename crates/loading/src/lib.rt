// Loads three record files into the tree regions of an area, or says why not; then nothing has changed.
#![tactic(auto)]

ghost use Rattle.std.specs.Prelude.{◌≡◌, ℕ, ◌*◌, ◌≤◌, true, [], ◌∷◌, is_err, Some, Ok, IfOk};
ghost use Rattle.model.specs.Trees.{nodes};
ghost use Rattle.records.specs.Reading.{says, then};
ghost use Rattle.records.specs.Views.{tree_of, trees_of, LiesIn};
ghost use Rattle.area.specs.Views.{limit as limit_of, Only};
ghost use Rattle.area.specs.declared.regions.Region.TheVariants.{Tree};
ghost use Rattle.tables.specs.declared.Table.TheVariants.{Archive, Field, Bench};
ghost use Rattle.loading.specs.Loads.{within, copy_loaded, loaded, outcome_of, outcomes_of, sizes_of, LieIn, Loaded};

use area::{Area, Region, Table};
use intake::bring;
use obeying::hold;
use records::{View, Wanted, read};
use refusals::{Reason, Refusal, Whose};
use rules::Rulebook;
use tables::Three;

// The views of three record files.
pub type Views<'a> = Three<View<'a>>;

// Their numbers of nodes.
pub fn counts(views: Views) -> Three<usize>
    ensures { result ≡ sizes_of views.entry }
{
    views.map(|view| view.count())
}

// Reads a record file whose tree may have at most `limit` nodes.
fn read_within(bytes: &[u8], wanted: Wanted, limit: usize) -> Result<View<'_>, Refusal>
    ensures answer { trees_of result ≡ then (says bytes.now wanted) (within limit wanted.whose) }
    ensures place { IfOk result (λ v. LiesIn bytes.now v) }
    ensures few { IfOk result (λ v. nodes (tree_of v) ≤ limit) }
{
    let view = read(bytes, wanted)?;
    if view.count() > limit {
        return Err(Reason::Crowded.refuse(wanted.whose, view.count()));
    }
    Ok(view)
}

// Reads the file of a copy of at most `limit` nodes and holds it to the rulebook.
fn read_copy_within<'a, R: Rulebook>(
    rules: &R,
    bytes: &'a [u8],
    whose: Whose,
    limit: usize,
) -> Result<View<'a>, Refusal>
    ensures answer { trees_of result ≡ copy_loaded (R.meaning rules.now) limit whose bytes.now }
    ensures place { IfOk result (λ v. LiesIn bytes.now v) }
    ensures few { IfOk result (λ v. nodes (tree_of v) ≤ limit) }
{
    let view = read_within(bytes, Wanted::copy(whose, 0), limit)?;
    hold(rules, Some(0), whose, view)?;
    Ok(view)
}

// Reads all three, each in its turn.
fn read_all<'a, R: Rulebook>(
    rules: &R,
    limit: usize,
    archive: &'a [u8],
    field: &'a [u8],
    bench: &'a [u8],
) -> Result<Views<'a>, Refusal>
    ensures answer { outcomes_of result ≡ loaded (R.meaning rules.now) limit archive.now field.now bench.now }
    ensures place { IfOk result (λ v. LieIn archive.now field.now bench.now v) }
    ensures few { IfOk result (λ v. (nodes (tree_of v.archive) ≤ limit) × (nodes (tree_of v.field) ≤ limit) × (nodes (tree_of v.bench) ≤ limit)) }
{
    Ok(Views {
        archive: read_within(archive, Wanted::archive(), limit)?,
        field: read_copy_within(rules, field, Whose::Field, limit)?,
        bench: read_copy_within(rules, bench, Whose::Bench, limit)?,
    })
}

// Loads three record files. A refused load changes nothing.
pub fn load<'a, R: Rulebook>(
    rules: &R,
    area: &mut Area,
    archive: &'a [u8],
    field: &'a [u8],
    bench: &'a [u8],
) -> Result<Views<'a>, Refusal>
    ensures answer { outcomes_of result ≡ loaded (R.meaning rules.now) (limit_of area.old) archive.now field.now bench.now }
    ensures place { IfOk result (λ v. LieIn archive.now field.now bench.now v) }
    ensures holds { IfOk result (λ v. Loaded area.new (outcome_of v)) }
    ensures stays { is_err result ≡ true → Only [] area.old area.new }
    ensures only { Only (Tree Archive ∷ Tree Field ∷ Tree Bench ∷ []) area.old area.new }
{
    let views = read_all(rules, area.limit(), archive, field, bench)?;
    bring(area, Region::Tree(Table::Archive), views.archive);
    bring(area, Region::Tree(Table::Field), views.field);
    bring(area, Region::Tree(Table::Bench), views.bench);
    Ok(views)
}
