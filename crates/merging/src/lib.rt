// The round of a field copy and a bench copy over their archive, in the words of one area.
#![tactic(auto)]

ghost use Rattle.std.specs.Prelude.{◌+◌, ◌<◌, [], ◌∷◌, Some};
ghost use Rattle.model.specs.Trees.{Tree};
ghost use Rattle.model.specs.Round.{Outcome, round as round_of};
ghost use Rattle.model.specs.Safety.{Ready};
ghost use Rattle.area.specs.Views.{Only};
ghost use Rattle.tables.specs.declared.Table.TheVariants.{Archive, Field, Bench};
ghost use Rattle.area.specs.declared.regions.Region.TheVariants.{New, Stack, Names};
ghost use Rattle.merging.specs.Held.{Held, Merged};
ghost use Rattle.merging.specs.Going.{Opening, Opens, Topped, Busy, State, work};

mod closing;
mod outputs;
mod places;
mod stack;
mod types;

use area::{Area, Region, Table};
use closing::close;
use obeying::class_under;
use outputs::{open_all, settle};
use places::{choose, inside, look, past_all, place, whole};
use rules::Rulebook;
use stack::{FRAME, push, top};
use tables::Three;
pub use types::Sizes;
use types::{Frame, Here, Step, Walk};

// Goes down to the children of a place.
fn descend(area: &mut Area, class: Option<u32>, here: Here, walk: Walk) -> Walk
    requires { (ts : Table → Tree) × Opening area.old here walk ts }
    ensures opens { (ts : Table → Tree) → Opening area.old here walk ts → Opens area.old area.new class here ts walk result }
    ensures only { Only (New Archive ∷ New Field ∷ New Bench ∷ Stack ∷ []) area.old area.new }
{
    let frame = Frame {
        class,
        ends: past_all(area, here),
        field: place(here.places.field),
        bench: place(here.places.bench),
        new: walk.new,
    };
    Walk {
        top: push(area, walk.top, frame),
        at: Sizes {
            archive: inside(here.places.archive),
            field: inside(here.places.field),
            bench: inside(here.places.bench),
        },
        new: open_all(area, here.name, walk.new),
    }
}

// Merges the next name of a level that has one: it is settled, or the walk goes down to its children.
fn advance<R: Rulebook>(rules: &R, area: &mut Area, walk: Walk, frame: Frame) -> Walk
    requires given { (target : Outcome) × Topped (R.meaning rules.now) target area.old walk frame }
    requires more { walk.at.field + walk.at.bench < frame.ends.field + frame.ends.bench }
    ensures goes { (target : Outcome) → Topped (R.meaning rules.now) target area.old walk frame → State (R.meaning rules.now) target area.new result }
    ensures less { work area.new result < work area.old walk }
    ensures only { Only (New Archive ∷ New Field ∷ New Bench ∷ Stack ∷ Names ∷ []) area.old area.new }
{
    let here = look(area, walk.at, frame.ends);
    match choose(area, here) {
        Step::Down => {
            let class = class_under(rules, frame.class, here.name);
            descend(area, class, here, walk)
        }
        step => Walk {
            top: walk.top,
            at: past_all(area, here),
            new: settle(area, here, step, walk.new),
        },
    }
}

// One turn of the round: the level on top of the stack goes on, or is closed where no name is left.
fn turn<R: Rulebook>(rules: &R, area: &mut Area, walk: Walk) -> Walk
    requires { (target : Outcome) × Busy (R.meaning rules.now) target area.old walk }
    ensures goes { (target : Outcome) → Busy (R.meaning rules.now) target area.old walk → State (R.meaning rules.now) target area.new result }
    ensures less { work area.new result < work area.old walk }
    ensures only { Only (New Archive ∷ New Field ∷ New Bench ∷ Stack ∷ Names ∷ []) area.old area.new }
{
    let frame = top(area, walk.top);
    if walk.at.field < frame.ends.field || walk.at.bench < frame.ends.bench {
        advance(rules, area, walk, frame)
    } else {
        Walk {
            top: walk.top + FRAME,
            at: frame.ends,
            new: close(rules, area, frame, walk.new),
        }
    }
}

// Goes on until every level is closed.
fn finish<R: Rulebook>(rules: &R, area: &mut Area, start: Walk) -> Sizes
    requires { (target : Outcome) × Busy (R.meaning rules.now) target area.old start }
    ensures merged { (target : Outcome) → Busy (R.meaning rules.now) target area.old start → Merged target area.new result }
    ensures only { Only (New Archive ∷ New Field ∷ New Bench ∷ Stack ∷ Names ∷ []) area.old area.new }
{
    let full = area.size(Region::Stack);
    let mut walk = start;
    // fixed memory: a walk whose stack stands in the area, with no index that is counted to an end
    while walk.top < full {
        walk = turn(rules, area, walk);
    }
    walk.new
}

// The round. It writes the new tree of each table, and gives their numbers of nodes; the trees that the area holds stay.
pub fn round<R: Rulebook>(rules: &R, area: &mut Area, sizes: Sizes) -> Sizes
    requires given { (o a b : Tree) × Held area.old sizes o a b × Ready (R.meaning rules.now) (Some 0) o a b }
    ensures merged { (o a b : Tree) → Held area.old sizes o a b → Ready (R.meaning rules.now) (Some 0) o a b → Merged (round_of (R.meaning rules.now) o a b) area.new result }
    ensures only { Only (New Archive ∷ New Field ∷ New Bench ∷ Stack ∷ Names ∷ []) area.old area.new }
{
    let here = Here {
        name: 0,
        places: Three {
            archive: whole(sizes.archive),
            field: whole(sizes.field),
            bench: whole(sizes.bench),
        },
    };
    let none = Sizes {
        archive: 0,
        field: 0,
        bench: 0,
    };
    match choose(area, here) {
        Step::Down => {
            let start = Walk {
                top: area.size(Region::Stack),
                at: none,
                new: none,
            };
            let first = descend(area, Some(0), here, start);
            finish(rules, area, first)
        }
        step => settle(area, here, step, none),
    }
}
