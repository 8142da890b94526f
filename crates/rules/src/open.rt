// Open: one class, which allows every set of names and stands under every name.
ghost use Rattle.std.specs.Prelude.{◌≡◌};
ghost use Rattle.model.specs.Rulebooks.{open_meaning};
ghost use Rattle.model.proofs.Rulebooks.{open_bounded, open_names, open_trees};

use super::Rulebook;
use super::names::ascends;

const MOST_NAMES: usize = 8192;

#[derive(Clone, Copy)]
pub struct Open;

impl Rulebook for Open {
    ghost meaning = { λ _. open_meaning };

    ghost bounded = { λ x. open_bounded };

    ghost named = { λ x. open_names };

    ghost peopled = { λ x. open_trees };

    fn class_count(&self) -> u32 {
        1
    }

    fn class_under(&self, class: u32, _name: u32) -> Option<u32> {
        (class == 0).then_some(0)
    }

    fn allowed(&self, class: u32, names: &[u32]) -> bool {
        class == 0 && names.len() <= MOST_NAMES && ascends(names)
    }
}
