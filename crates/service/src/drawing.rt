// Drawing a round.
ghost use Rattle.std.specs.Prelude.{◌≡◌, if◌then◌else◌, Ok, Err, nat_le};
ghost use Rattle.refusals.specs.declared.Reason.TheVariants as reason;
ghost use Rattle.refusals.specs.Numbers.{refused};
ghost use Rattle.ledger.specs.Answers.{draw_answer};
ghost use Rattle.service.specs.Keeping.{Came};
ghost use Rattle.service.specs.Service.{trees, limit, outcome_in, Same};

use crate::types::File;
use merging::{Sizes, round};
use refusals::{Reason, Refusal, Whose};
use rules::Rulebook;

// Refuses a tree of an outcome that has more nodes than the limit.
fn fit(limit: usize, whose: Whose, count: usize) -> Result<(), Refusal>
    ensures { result ≡ (if nat_le count limit then Ok tt else Err (refused reason.Outcome whose count)) }
{
    if count > limit {
        return Err(Reason::Outcome.refuse(whose, count));
    }
    Ok(())
}

impl File {
    // Draws the round of the trees, or says why not. The outcome comes to stand beside the trees, which stay. Gives the numbers of nodes of the
    // outcome.
    pub(crate) fn draw_beside<R: Rulebook>(&mut self, rules: &R) -> Result<Sizes, Refusal>
        ensures answer { outcome_in self.new.area result ≡ draw_answer (R.meaning rules.now) (limit self.old) (trees self.old) }
        ensures came { Came self.new.area result }
        ensures same { Same self.old self.new }
    {
        self.both_obey(rules)?;
        let new = round(rules, &mut self.area, self.sizes);
        let limit = self.area.limit();
        fit(limit, Whose::Archive, new.archive)?;
        fit(limit, Whose::Field, new.field)?;
        fit(limit, Whose::Bench, new.bench)?;
        Ok(new)
    }
}
