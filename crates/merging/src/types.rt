// What a round keeps in its variables.
use stored::Spot;
use tables::Three;

// Numbers of nodes.
pub type Sizes = Three<usize>;

// The step that settles a place, or the step down to its children. An enum, since the steps are the cases of the round's definition, and what they do
// differs by table: closures would have to be told apart again.
#[derive(Clone, Copy)]
pub enum Step {
    // both copies are equal
    Agreed,
    // only the bench copy was edited
    TakeBench,
    // only the field copy was edited
    TakeField,
    // the place is marked, or becomes so
    Mark,
    Down,
}

// A name, and where the lookup of it stopped in each table.
#[derive(Clone, Copy)]
pub struct Here {
    pub name: u32,
    pub places: Three<Spot>,
}

// What the stack keeps of a node whose children are being merged: its class, where its children end in each table, where both copies have it,
// and where it stands among the new words.
#[derive(Clone, Copy)]
pub struct Frame {
    pub class: Option<u32>,
    pub ends: Sizes,
    pub field: usize,
    pub bench: usize,
    pub new: Sizes,
}

// How far a round has come: the top of the stack, the nodes passed in each table, and the nodes written for each.
#[derive(Clone, Copy)]
pub struct Walk {
    pub top: usize,
    pub at: Sizes,
    pub new: Sizes,
}
