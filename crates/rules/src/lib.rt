// What a rulebook is, and the two rulebooks: Open and Plate.
#![tactic(auto)]

ghost use Rattle.std.specs.Prelude.{◌≡◌};
ghost use Rattle.model.specs.Meaning.{Meaning, Bounded, NamesHaveClasses, ClassesHaveTrees};

mod names;
mod open;
mod plate;

pub use names::{ascends, four_in_a_row, no_name_above};
pub use open::Open;
pub use plate::{Plate, column_names, panel_names, row_names};

// A rulebook numbers its classes from 0, and says which sets of names a node of a class may have, and which class stands under a name.
// A set of names is a slice that ascends. The answers are those of its meaning, which is within the limits and keeps both laws.
pub trait Rulebook: Sized {
    ghost meaning: { Self → Meaning };

    fn class_count(&self) -> u32
        ensures count { result ≡ (meaning self.now).classes };

    // The class under a name of a node of the class, if there is one.
    fn class_under(&self, class: u32, name: u32) -> Option<u32>
        ensures under { result ≡ (meaning self.now).under class name };

    // Whether a node of the class may have these names.
    fn allowed(&self, class: u32, names: &[u32]) -> bool
        ensures answer { result ≡ (meaning self.now).allows class names.now };

    ghost bounded: { (x : Self) → Bounded (meaning x) };

    ghost named: { (x : Self) → NamesHaveClasses (meaning x) };

    ghost peopled: { (x : Self) → ClassesHaveTrees (meaning x) };
}

#[cfg(test)]
mod tests {
    use super::*;
    use std::test::Fail;

    #[test]
    fn plate_answers(rt: HostRuntime) {
        let cases: [(u32, &[u32], bool); 16] = [
            (0, &[1, 2], true),
            (0, &[1, 2, 3], true),
            (0, &[1], false),
            (0, &[1, 3], false),
            (0, &[1, 2, 4], false),
            (1, &[70000], true),
            (1, &[], false),
            (2, &[], true),
            (2, &[4095], true),
            (2, &[4096], false),
            (2, &[7, 7], false),
            (3, &[], false),
            (3, &[10, 11, 12], true),
            (3, &[9, 10, 11, 12], false),
            (4, &[], true),
            (5, &[], false),
        ];
        for (class, names, answer) in cases {
            assert_eq!(rt; Plate.allowed(class, names), answer);
        }
        let columns = [0, 1, 2, 4, 5, 6, 8, 9, 10, 12, 13, 14, 16, 17, 18, 20, 21];
        assert!(rt; Plate.allowed(3, &columns[..16]));
        assert!(rt; !Plate.allowed(3, &columns));
        assert_eq!(rt; Plate.class_under(2, 4095), Some(3));
        assert_eq!(rt; Plate.class_under(2, 4096), None);
        assert_eq!(rt; Plate.class_under(5, 1), None);
    }

    #[test]
    fn open_takes_8192_names(rt: HostRuntime) -> Result<(), Fail> {
        let names: Vec<u32> = (0..8193).collect(rt.alloc())?;
        assert!(rt; names.len() == 8193);
        assert!(rt; Open.allowed(0, &names[1..]));
        assert!(rt; !Open.allowed(0, &names));
        assert!(rt; !Open.allowed(0, &[3, 3]));
        Ok(())
    }
}
