// Whether a tree obeys a rulebook, tested where it stands.
ghost use Rattle.std.specs.Prelude.{◌≡◌, ℕ, ◌+◌, ◌*◌, ◌≤◌, [], ◌∷◌, drop, is_some, Some};
ghost use Rattle.model.specs.Trees.{Tree as Trees, names, nodes, marks};
ghost use Rattle.model.specs.Meaning.{allowed};
ghost use Rattle.model.specs.Faults.{first_fault};
ghost use Rattle.stored.specs.Words.{Stored, Stands, Standing, Holds, below};
ghost use Rattle.area.specs.Views.{view, limit, Only};
ghost use Rattle.area.specs.declared.regions.Region.TheVariants.{Tree, Stack, Names};
ghost use Rattle.editing.specs.Opening.{Opened};

use super::gathering::gather;
use super::reading::{name, next};
use area::{Area, Region, Table};
use rules::Rulebook;

// Puts two words on top of the stack, which grows downwards, and gives the new top.
fn push(area: &mut Area, top: usize, first: u32, second: u32) -> usize
    requires room { 2 ≤ top }
    requires within { top ≤ 16 * limit area.old }
    ensures lower { result + 2 ≡ top }
    ensures words { drop result (view area.new Stack) ≡ first ∷ second ∷ drop top (view area.old Stack) }
    ensures only { Only (Stack ∷ []) area.old area.new }
{
    area.set(Region::Stack, top - 1, second);
    area.set(Region::Stack, top - 2, first);
    top - 2
}

// Opens the node at `at`: puts it on the stack if its class allows the names of its children, and gives the new top.
// What has no class is never opened, so that on the stack a class is one word.
fn open<R: Rulebook>(
    rules: &R,
    area: &mut Area,
    table: Table,
    at: usize,
    class: Option<u32>,
    top: usize,
) -> Option<usize>
    requires stands { Standing (view area.old (Tree table)) at }
    requires room { 2 ≤ top }
    requires within { top ≤ 16 * limit area.old }
    ensures answer { (s : Stored) → Stands (view area.old (Tree table)) at s → is_some result ≡ allowed (R.meaning rules.now) class (names (below s.tree)) }
    ensures opened { (s : Stored) (new : ℕ) → Stands (view area.old (Tree table)) at s → result ≡ Some new → Opened (view area.old Stack) (view area.new Stack) top new class (at + nodes s.tree) }
    ensures only { Only (Names ∷ Stack ∷ []) area.old area.new }
{
    let Some(number) = class else {
        return None;
    };
    let tree = Region::Tree(table);
    let many = gather(area, tree, at);
    if !rules.allowed(number, &area.part(Region::Names)[..many]) {
        return None;
    }
    let end = next(area, tree, at);
    Some(push(area, top, number, end as u32))
}

// The number of the first node, in file order, whose names are not allowed, in a tree of `count` nodes whose root is of class 0.
// Each node is opened when the walk comes to it, and leaves the stack when the walk comes to where its tree ends.
pub fn first_unlawful<R: Rulebook>(
    rules: &R,
    area: &mut Area,
    table: Table,
    count: usize,
) -> Option<usize>
    requires { (t : Trees) × Holds (view area.old (Tree table)) count t × (marks t ≡ 0) }
    ensures answer { (t : Trees) → Holds (view area.old (Tree table)) count t → marks t ≡ 0 → result ≡ first_fault (R.meaning rules.now) (Some 0) t }
    ensures only { Only (Names ∷ Stack ∷ []) area.old area.new }
{
    if count == 0 {
        return None;
    }
    let full = area.size(Region::Stack);
    let Some(mut top) = open(rules, area, table, 0, Some(0), full) else {
        return Some(0);
    };
    let mut at = 1;
    // fixed memory: a walk whose stack stands in the area, with no index that is counted to an end
    while top < full {
        let end = area.get(Region::Stack, top + 1) as usize;
        if at == end {
            top += 2;
        } else {
            let parent = area.get(Region::Stack, top);
            let class = rules.class_under(parent, name(area, Region::Tree(table), at));
            let Some(lower) = open(rules, area, table, at, class, top) else {
                return Some(at);
            };
            top = lower;
            at += 1;
        }
    }
    None
}
