// Whether the tree of a record file obeys a rulebook, tested on the bytes.
#![tactic(auto)]

ghost use Rattle.std.specs.Prelude.{◌≡◌, ◌+◌, ◌-◌, ◌<◌, ◌≤◌, List, length, cond, Some, IfOk};
ghost use Rattle.model.specs.Trees.{Tree, nodes};
ghost use Rattle.model.specs.Meaning.{class_under, class_at, allowed as is_allowed};
ghost use Rattle.model.specs.Meaning.{Obeys};
ghost use Rattle.model.specs.Faults.{or_else, fault_from, first_fault};
ghost use Rattle.records.specs.declared.Entry.{Entry as TheEntry};
ghost use Rattle.records.specs.Bytes.{entries_of};
ghost use Rattle.records.specs.Reading.{says, then, passed, copy_of};
ghost use Rattle.records.specs.Views.{tree_of, trees_of, LiesIn};
ghost use Rattle.records.specs.Files.{Fits, EndsWith};
ghost use Rattle.obeying.specs.Heading.{Heads};
ghost use Rattle.obeying.specs.Lawful.{lawful};

use records::{Entry, NodeKind, TreeKind, View, Wanted, read};
use refusals::{Reason, Refusal, Whose};
use rules::Rulebook;

// The most nodes of a tree.
const MOST_NODES: usize = 4096;

// A test of a tree of so many nodes.
#[derive(Drop)]
struct Test<'a, R> {
    rules: &'a R,
    count: usize,
}

// The class under a name; below no class there is none.
pub fn class_under<R: Rulebook>(rules: &R, class: Option<u32>, name: u32) -> Option<u32>
    ensures { result ≡ class_under (R.meaning rules.now) class name }
{
    class.and_then(|class| rules.class_under(class, name))
}

// The class at the end of a path from the root, which is of class 0.
pub fn class_at<R: Rulebook>(rules: &R, path: &[u32]) -> Option<u32>
    ensures { result ≡ class_at (R.meaning rules.now) (Some 0) path.now }
{
    let mut class = Some(0);
    for name in path {
        class = class_under(rules, class, *name);
    }
    class
}

// Whether names are allowed; where there is no class, none are.
pub fn allowed<R: Rulebook>(rules: &R, class: Option<u32>, names: &[u32]) -> bool
    ensures { result ≡ is_allowed (R.meaning rules.now) class names.now }
{
    class.is_some_and(|class| rules.allowed(class, names))
}

impl<R: Rulebook> Test<'_, R> {
    // The number of the node whose record was read last, if these are left.
    fn number(&self, rest: &[[u8; 8]]) -> usize
        requires { length rest.now < self.now.count }
        ensures { result ≡ self.now.count - 1 - length rest.now }
    {
        self.count - 1 - rest.len()
    }

    // The first unlawful node of a root, which is number `at` and whose children have these names, and of those of its children that were tested, where
    // this was found among those.
    fn own(
        &self,
        class: Option<u32>,
        names: &[u32],
        at: usize,
        below: Option<usize>,
    ) -> Option<usize>
        ensures { result ≡ cond (is_allowed (R.meaning self.now.rules.now) class names.now) below (Some at) }
    {
        if allowed(self.rules, class, names) {
            below
        } else {
            Some(at)
        }
    }

    // The first unlawful node of a tree that is one node, which has this number, unless one was found before.
    fn leaf(
        &self,
        class: Option<u32>,
        entry: Entry,
        at: usize,
        before: Option<usize>,
    ) -> Option<usize>
        ensures { (t : Tree) (es more : List TheEntry) → Heads entry es t more → entry.children ≡ 0 → result ≡ or_else before (fault_from (R.meaning self.now.rules.now) class t at) }
    {
        if entry.kind == NodeKind::Mark.code() {
            return before.or(Some(at));
        }
        before.or(self.own(class, &[], at, None))
    }

    // The number of the first unlawful node of a tree whose root has so many children, at least one, and whose first record was read already, unless
    // one was found before. What is left of the records then are those behind the tree. The names of the children are put together at the front of
    // `names`, and those of all below them behind: each record is read once. When the last child's record is read, the names are complete, so that
    // the test ends by calling itself for that child. All arguments are numbers and slices, so that LLVM makes this a jump.
    fn node(
        &self,
        rest: &mut &[[u8; 8]],
        class: Option<u32>,
        children: u32,
        names: &mut [u32],
        before: Option<usize>,
    ) -> Option<usize>
        requires tree { (e : TheEntry) × (t : Tree) × (more : List TheEntry) × Heads e (entries_of rest.old.now) t more × (e.children ≡ children) × (nodes t ≤ length names.old + 1) }
        requires some { 0 < children }
        requires number { length rest.old.now < self.now.count }
        ensures fault { (e : TheEntry) (t : Tree) (more : List TheEntry) → Heads e (entries_of rest.old.now) t more → e.children ≡ children → result ≡ or_else before (fault_from (R.meaning self.now.rules.now) class t (self.now.count - 1 - length rest.old.now)) }
        ensures behind { (e : TheEntry) (t : Tree) (more : List TheEntry) → Heads e (entries_of rest.old.now) t more → e.children ≡ children → entries_of rest.new.now ≡ more }
    {
        let at = self.number(rest);
        let (own, room) = names.split_at_mut(children as usize);
        let mut fault = None;
        let mut last = None;
        for (i, name) in own.iter_mut().enumerate() {
            let (record, below) = rest.split_first().unwrap();
            *rest = below;
            let child = Entry::from(*record);
            *name = child.name;
            let under = class_under(self.rules, class, child.name);
            if i + 1 == children as usize {
                last = Some((under, child));
            } else if child.children == 0 {
                fault = self.leaf(under, child, self.number(rest), fault);
            } else {
                fault = self.node(rest, under, child.children, room, fault);
            }
        }
        let found = before.or(self.own(class, own, at, fault));
        let Some((under, child)) = last else {
            // never: there is at least one child
            return found;
        };
        if child.children == 0 {
            return self.leaf(under, child, self.number(rest), found);
        }
        self.node(rest, under, child.children, room, found)
    }
}

// The number of the first node, in file order, whose names the rulebook does not allow, if the root of the tree is of this class. A mark is such
// a node.
pub fn first_unlawful<R: Rulebook>(rules: &R, class: Option<u32>, view: View) -> Option<usize>
    ensures { result ≡ first_fault (R.meaning rules.now) class (tree_of view.entry) }
{
    let (record, mut rest) = view.records.split_first()?;
    let test = Test {
        rules,
        count: view.count(),
    };
    let root = Entry::from(*record);
    if root.children == 0 {
        return test.leaf(class, root, 0, None);
    }
    // fixed memory: there is no heap for the names
    let mut names = [0u32; MOST_NODES];
    test.node(&mut rest, class, root.children, &mut names, None)
}

// Holds the tree of a view to the rulebook.
pub fn hold<R: Rulebook>(
    rules: &R,
    class: Option<u32>,
    whose: Whose,
    view: View,
) -> Result<(), Refusal>
    ensures { result ≡ passed tt (lawful (R.meaning rules.now) class whose (tree_of view.entry)) }
{
    match first_unlawful(rules, class, view) {
        Some(node) => Err(Reason::Disobeys.refuse(whose, node)),
        None => Ok(()),
    }
}

// Reads the file of a copy and holds its tree to the rulebook, from a class and a depth of its root on.
pub fn read_copy<'a, R: Rulebook>(
    rules: &R,
    class: Option<u32>,
    bytes: &'a [u8],
    whose: Whose,
    depth: usize,
) -> Result<View<'a>, Refusal>
    ensures answer { trees_of result ≡ then (says bytes.now (copy_of whose depth)) (lawful (R.meaning rules.now) class whose) }
    ensures place { IfOk result (λ v. LiesIn bytes.now v) }
    ensures obeys { IfOk result (λ v. Fits (copy_of whose depth) (tree_of v) × EndsWith bytes.now (tree_of v) TreeKind.Copy × Obeys (R.meaning rules.now) class (tree_of v)) }
{
    let view = read(bytes, Wanted::copy(whose, depth))?;
    hold(rules, class, whose, view)?;
    Ok(view)
}
