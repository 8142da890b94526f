// Lists of calls: what stands after them, what they answer, and what holds of every round among them.
#![tactic(auto)]

ghost use Rattle.std.specs.Prelude.{◌≡◌, IfOk, vec_len};
ghost use Rattle.refusals.specs.Output.{told as told_length, left as left_in};
ghost use Rattle.area.specs.Layout.{limit_of};
ghost use Rattle.ledger.specs.Ledger.{start, step as step_of, answer as answer_of, stands, answers as answers_of, held};
ghost use Rattle.ledger.specs.Histories.{CopiesObey, RoundsAreMarkedAtConflicts, RoundsAreSafe, NoRivalDoesMore};
ghost use Rattle.history.specs.Desks.{state_of, limit_of as desk_limit, report_of, first_refused, replay_report};

use ledger::{Answer, Call};
use refusals::Refusal;
use rules::Rulebook;
use service::File;
use std::alloc::{AllocError, Global};
use text::write_refusal_line;

mod types;

pub use types::{Desk, Replay};

impl Desk {
    // One call. A round cannot be edited or drawn, and a file not adopted or dropped: such a call does nothing.
    fn take<R: Rulebook>(self, rules: &R, call: Call) -> (Desk, Answer)
        ensures state { state_of result.0 ≡ step_of (R.meaning rules.now) (desk_limit self) (state_of self) call.entry }
        ensures answer { result.1 ≡ answer_of (R.meaning rules.now) (desk_limit self) (state_of self) call.entry }
        ensures limit { desk_limit result.0 ≡ desk_limit self }
    {
        match (self, call) {
            (
                Desk::File(mut file),
                Call::Load {
                    archive,
                    field,
                    bench,
                },
            ) => {
                let answer = file.load(rules, archive, field, bench);
                (Desk::File(file), Answer::Edited(answer))
            }
            (Desk::File(mut file), Call::Put { side, path, bytes }) => {
                let answer = file.put(rules, side, path, bytes);
                (Desk::File(file), Answer::Edited(answer))
            }
            (Desk::File(mut file), Call::Strike { side, path }) => {
                let answer = file.strike(rules, side, path);
                (Desk::File(file), Answer::Edited(answer))
            }
            (Desk::File(file), Call::Draw) => {
                let round = file.draw(rules);
                let answer = Answer::Drawn {
                    refusal: round.refusal(),
                    marks: round.marks(),
                };
                (Desk::Round(round), answer)
            }
            (Desk::Round(round), Call::Adopt) => (Desk::File(round.adopt()), Answer::Returned),
            (Desk::Round(round), Call::Drop) => (Desk::File(round.drop()), Answer::Returned),
            (desk, _) => (desk, Answer::OutOfTurn),
        }
    }

    // Writes the report of what stands.
    fn report(&self, out: &mut [u8]) -> Result<usize, Refusal>
        ensures answer { result ≡ told_length (report_of (state_of self.now)) out.old }
        ensures output { out.new ≡ left_in (report_of (state_of self.now)) out.old }
    {
        match self {
            Desk::File(file) => file.report(out),
            Desk::Round(round) => round.report(out),
        }
    }
}

// Makes a file over an area of any length and takes a list of calls, all under one rulebook. Gives what stands after them and what each of them
// answered, or that there was no memory for the answers.
//
// Whatever the calls are: what stands, and every answer, is what the ledger says; both copies obey; and every round among the calls whose draw was
// not refused, adopted or dropped, is marked exactly at the conflicts and below, was safe, and no safe rival does more.
pub fn replay<R: Rulebook>(
    heap: Global,
    words: Vec<u32>,
    rules: &R,
    calls: &[Call],
) -> Result<Replay, AllocError>
    ensures stands_as_the_ledger_says { IfOk result (λ x. state_of x.desk ≡ stands (R.meaning rules.now) (limit_of (vec_len words)) start calls.now) }
    ensures answers_as_the_ledger_says { IfOk result (λ x. x.answers.items ≡ answers_of (R.meaning rules.now) (limit_of (vec_len words)) start calls.now) }
    ensures both_copies_obey { IfOk result (λ x. CopiesObey (R.meaning rules.now) (held (state_of x.desk))) }
    ensures rounds_are_marked_at_conflicts { RoundsAreMarkedAtConflicts (R.meaning rules.now) (limit_of (vec_len words)) calls.now }
    ensures rounds_are_safe { RoundsAreSafe (R.meaning rules.now) (limit_of (vec_len words)) calls.now }
    ensures no_rival_does_more { NoRivalDoesMore (R.meaning rules.now) (limit_of (vec_len words)) calls.now }
{
    let mut desk = Desk::File(File::new(words));
    let mut answers = Vec::new(heap);
    for call in calls {
        let (next, answer) = desk.take(rules, *call);
        desk = next;
        answers.push(answer)?;
    }
    Ok(Replay { desk, answers })
}

impl Replay {
    // Why a load, a put or a strike was refused, if one was: the first of them.
    pub fn first_refusal(&self) -> Option<Refusal>
        ensures { result ≡ first_refused self.now.answers.items }
    {
        self.answers.iter().find_map(|answer| answer.refusal())
    }

    // Writes the line of that refusal or, if there is none, the report of what stands. Answers its length. The bytes behind it stay. An output that
    // is too short stays as it was.
    pub fn report(&self, out: &mut [u8]) -> Result<usize, Refusal>
        ensures answer { result ≡ told_length (replay_report (first_refused self.now.answers.items) (state_of self.now.desk)) out.old }
        ensures output { out.new ≡ left_in (replay_report (first_refused self.now.answers.items) (state_of self.now.desk)) out.old }
    {
        match self.first_refusal() {
            Some(refusal) => write_refusal_line(refusal, out),
            None => self.desk.report(out),
        }
    }

    // The same in a vector of its own. The report is written to slices, so it is asked first how long it is.
    pub fn text(&self, heap: Global) -> Result<Vec<u8>, AllocError>
        ensures { IfOk result (λ v. v.items ≡ replay_report (first_refused self.now.answers.items) (state_of self.now.desk)) }
    {
        let needed = self.report(&mut []).unwrap_or_else(|refusal| refusal.place);
        let mut text = vec![in heap; 0u8; needed]?;
        let _ = self.report(text.as_mut_slice());
        Ok(text)
    }
}
