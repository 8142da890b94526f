// The calls of a service file, what they answer, and what the ledger of a list of calls says.
#![tactic(auto)]

ghost use Rattle.std.specs.Prelude.{◌≡◌, ℕ, List};
ghost use Rattle.model.specs.Meaning.{Meaning};
ghost use Rattle.ledger.specs.Answers.{whose_of, table_of};
ghost use Rattle.ledger.specs.Ledger.{refused_in};
ghost use Rattle.ledger.specs.Histories.{CopiesObeyAfter, RoundsAreMarkedAtConflicts, RoundsAreSafe, NoRivalDoesMore};

use area::Table;
use refusals::{Refusal, Whose};

// The copy that an edit is for.
#[derive(Clone, Copy)]
pub enum Side {
    Field,
    Bench,
}

// A call.
#[derive(Clone, Copy)]
pub enum Call<'a> {
    // replaces all three trees by those of record files
    Load {
        archive: &'a [u8],
        field: &'a [u8],
        bench: &'a [u8],
    },
    // sets the tree of a record file at a path of a copy
    Put {
        side: Side,
        path: &'a [u32],
        bytes: &'a [u8],
    },
    // takes away what stands at a path of a copy
    Strike {
        side: Side,
        path: &'a [u32],
    },
    // turns the file into a round
    Draw,
    // turns the round into a file with the outcome
    Adopt,
    // turns the round into the file that it was drawn from
    Drop,
}

// What a call answers.
#[derive(Clone, Copy)]
pub enum Answer {
    // a load, a put or a strike is done, or refused
    Edited(Result<(), Refusal>),
    // a round is drawn: why the draw was refused, if it was, and the number of marks in the archive of the round
    Drawn {
        refusal: Option<Refusal>,
        marks: usize,
    },
    // the round is a file again
    Returned,
    // the call does not fit and does nothing: a round cannot be edited or drawn, and a file not adopted or dropped
    OutOfTurn,
}

// Whose copy it is.
impl From<Side> for Whose {
    ghost from_gives = { λ side whose. whose ≡ whose_of side };

    fn from(side: Side) -> Whose {
        match side {
            Side::Field => Whose::Field,
            Side::Bench => Whose::Bench,
        }
    }
}

// The table of the copy.
impl From<Side> for Table {
    ghost from_gives = { λ side table. table ≡ table_of side };

    fn from(side: Side) -> Table {
        match side {
            Side::Field => Table::Field,
            Side::Bench => Table::Bench,
        }
    }
}

impl Answer {
    // Why a load, a put or a strike was refused, if this is its answer.
    pub fn refusal(self) -> Option<Refusal>
        ensures { result ≡ refused_in self }
    {
        match self {
            Answer::Edited(result) => result.err(),
            _ => None,
        }
    }
}

// After every list of calls under one rulebook both copies of what stands obey it.
pub fn copies_obey()
    ensures { (m : Meaning) (l : ℕ) (calls : List Call) → CopiesObeyAfter m l calls }
{}

// Every round that was not refused is marked exactly at the conflicts and below them.
pub fn rounds_are_marked_at_conflicts()
    ensures { (m : Meaning) (l : ℕ) (calls : List Call) → RoundsAreMarkedAtConflicts m l calls }
{}

// Every such round was safe.
pub fn rounds_are_safe()
    ensures { (m : Meaning) (l : ℕ) (calls : List Call) → RoundsAreSafe m l calls }
{}

// No safe outcome of the same trees does more.
pub fn no_rival_does_more()
    ensures { (m : Meaning) (l : ℕ) (calls : List Call) → NoRivalDoesMore m l calls }
{}
