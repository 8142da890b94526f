#![tactic(auto)]

ghost use Rattle.std.specs.Prelude.{◌≡◌, Some};
ghost use Rattle.refusals.specs.Numbers.{number_of, layer_of, layer_number, whose_number, refused};
ghost use Rattle.refusals.specs.Line.{line};

use std::fmt;

// Why a call was refused.
#[derive(Clone, Copy, PartialEq, Eq, Debug)]
pub enum Reason {
    // fewer bytes than a trailer has
    Short = 1,
    // a trailer that is wrong, or of another kind of tree
    Trailer = 2,
    // a node record that is wrong in itself
    Record = 3,
    // records left over or run out, or a missing tree where one is needed
    Count = 4,
    // a node too deep
    Depth = 5,
    // more nodes than the service file can hold
    Crowded = 6,
    // names that the rulebook does not allow
    Disobeys = 7,
    // a path too long, or one that leads nowhere
    Path = 8,
    // an edit after which the parent's names are not allowed
    Edit = 9,
    // an outcome with more nodes than the service file can hold
    Outcome = 10,
    // an output too short for what is to be written
    Output = 11,
}

// The layer that refuses.
#[derive(Clone, Copy, PartialEq, Eq, Debug)]
pub enum Layer {
    Records = 1,
    Rulebook = 2,
    Service = 3,
}

// Whose tree a refusal is about.
#[derive(Clone, Copy, PartialEq, Eq, Debug)]
pub enum Whose {
    Nobody = 0,
    Archive = 1,
    Field = 2,
    Bench = 3,
    // the tree that a put brings
    Brought = 4,
}

// What a refused call answers.
#[derive(Clone, Copy, PartialEq, Eq, Debug)]
pub struct Refusal {
    pub reason: Reason,
    pub whose: Whose,
    pub place: usize,
}

impl Reason {
    pub fn number(self) -> u32
        ensures { result ≡ number_of self }
    {
        self as u32
    }

    pub fn layer(self) -> Layer
        ensures { result ≡ layer_of self }
    {
        match self {
            Reason::Disobeys | Reason::Edit => Layer::Rulebook,
            Reason::Crowded | Reason::Path | Reason::Outcome | Reason::Output => Layer::Service,
            _ => Layer::Records,
        }
    }

    // The refusal for this reason.
    pub fn refuse(self, whose: Whose, place: usize) -> Refusal
        ensures { result ≡ refused self whose place }
    {
        Refusal {
            reason: self,
            whose,
            place,
        }
    }
}

impl Layer {
    pub fn number(self) -> u32
        ensures { result ≡ layer_number self }
    {
        self as u32
    }
}

impl Whose {
    pub fn number(self) -> u32
        ensures { result ≡ whose_number self }
    {
        self as u32
    }
}

// The line that is told of a refusal, without a newline.
impl fmt::Display for Refusal {
    ghost output = { λ r. Some (line r) };

    fn fmt<W: fmt::Write>(&self, f: &mut fmt::Formatter<W>) -> fmt::Result {
        let number = self.reason.number();
        let layer = self.reason.layer().number();
        let whose = self.whose.number();
        let place = self.place;
        write!(
            f,
            "refused {number} layer {layer} whose {whose} place {place}"
        )
    }
}
