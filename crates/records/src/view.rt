// The records of a tree.
ghost use Rattle.std.specs.Prelude.{length, nat_eq};
ghost use Rattle.std.proofs.Common.{rules};
ghost use Rattle.std.specs.Cmp.Rules.{comparing};
ghost use Rattle.std.specs.Ordering.{on, eq_of_both};
ghost use Rattle.records.specs.Records.{Tells, tree_in};

use std::fmt;

// The node records of a tree within the limits, as they stand in a record file: each node comes before its children, and each child with all
// below it before the next.
#[derive(Clone, Copy)]
pub struct View<'a> {
    // Where they begin in the file.
    pub start: usize,
    pub records: &'a [[u8; 8]],
    ghost ok: { ∥ Tells records.now (tree_in records.now) ∥₁ },
}

// Two numbers are compared, and not the records, which may be 32 KB.
impl PartialEq for View<'_> {
    ghost eq = { eq_of_both (on (λ v. v.start) nat_eq) (on (λ v. length v.records.now) nat_eq) };

    ghost laws = { Prim.search (comparing, rules) };

    fn eq(&self, other: &Self) -> bool {
        self.start == other.start && self.records.len() == other.records.len()
    }
}

impl Eq for View<'_> {
    ghost laws = { Prim.search (comparing, rules) };
}

// Two numbers are printed, as they are compared.
impl fmt::Debug for View<'_> {
    fn fmt<W: fmt::Write>(&self, f: &mut fmt::Formatter<W>) -> fmt::Result {
        f.debug_struct("View")
            .field("start", &self.start)
            .field("count", &self.records.len())
            .finish()
    }
}
