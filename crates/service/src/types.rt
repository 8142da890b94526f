ghost use Rattle.service.specs.Keeping.{Keeps, KeepsAt, Came};

use area::Area;
use merging::Sizes;
use refusals::Refusal;

// A service file: an archive, a field copy and a bench copy, in one area. A copy obeyed the rulebook of the call that brought it.
#[derive(Drop)]
pub struct File {
    pub(crate) area: Area,
    pub(crate) sizes: Sizes,
    ghost ok: { ∥ Keeps area sizes ∥₁ },
}

// A round that was drawn from a file: it keeps the file, and has its outcome beside the trees, or the refusal of the draw.
#[derive(Drop)]
pub struct Round {
    pub(crate) file: File,
    pub(crate) drawn: Result<Sizes, Refusal>,
    ghost came: { ∥ Came file.area drawn ∥₁ },
}

// Where three trees stand in an area: those of a file, or the outcome of a round.
#[derive(Clone, Copy)]
pub(crate) enum Place {
    Own,
    Outcome,
}

// Three trees, to be read.
#[derive(Clone, Copy)]
pub(crate) struct Shown<'a> {
    pub(crate) area: &'a Area,
    pub(crate) place: Place,
    pub(crate) sizes: Sizes,
    ghost ok: { ∥ KeepsAt area.now place sizes ∥₁ },
}

// What an edit does with the child under the last name of a path.
#[derive(Clone, Copy)]
pub(crate) enum Change {
    Put,
    Strike,
}
