// Tests of a list of names, each in one walk over it.
ghost use Rattle.std.specs.Prelude.{◌≡◌};
ghost use Rattle.model.specs.Rulebooks.{ascending, up_to, four_consecutive};

// As many numbers in a row are a run.
const RUN: u32 = 4;

// Whether each name is above the one before it.
pub fn ascends(names: &[u32]) -> bool
    ensures { result ≡ ascending names.now }
{
    names.is_sorted_by(|a, b| *a < *b)
}

// Whether no name is above the last one that there may be.
pub fn no_name_above(names: &[u32], last: u32) -> bool
    ensures { result ≡ up_to last names.now }
{
    names.iter().all(|name| *name <= last)
}

// Whether four names in a row are consecutive numbers.
pub fn four_in_a_row(names: &[u32]) -> bool
    ensures { result ≡ four_consecutive names.now }
{
    // The length of the run that ends here, a count and not an index, and the number that would go on with it, which may not fit a name.
    let mut run: u32 = 0;
    let mut next: u64 = 0;
    for name in names {
        let number = u64::from(*name);
        if number == next {
            run += 1;
        } else {
            run = 1;
        }
        if run == RUN {
            return true;
        }
        next = number + 1;
    }
    false
}
