use ledger::Answer;
use service::{File, Round};

// What stands after some calls.
#[derive(Drop)]
pub enum Desk {
    File(File),
    Round(Round),
}

// What came of a list of calls: what stands, and what each call answered.
#[derive(Drop)]
pub struct Replay {
    pub desk: Desk,
    pub answers: Vec<Answer>,
}
