// How far a path leads in a tree.
ghost use Rattle.std.specs.Prelude.{◌≡◌};
ghost use Rattle.model.specs.Trees.{Tree, at as what_stands_at, nodes, marks};
ghost use Rattle.stored.specs.Words.{Holds};
ghost use Rattle.editing.specs.Paths.{Reaches};

use super::types::Reach;
use stored::{Node, child};

// Follows a path in a tree of `count` nodes as far as it leads.
pub fn reach(words: &[u32], count: usize, path: &[u32]) -> Reach
    requires { (t : Tree) × Holds words.now count t × (marks t ≡ 0) }
    ensures { (t : Tree) → Holds words.now count t → marks t ≡ 0 → Reaches words.now t path.now result }
{
    if count == 0 {
        return Reach { names: 0, at: 0 };
    }
    let mut at = 0;
    for (names, name) in path.iter().enumerate() {
        let Some(below) = child(words, at, *name) else {
            return Reach { names, at };
        };
        at = below;
    }
    Reach {
        names: path.len(),
        at,
    }
}

// The number of nodes of what stands at the end of a path.
pub fn nodes_at(words: &[u32], count: usize, path: &[u32]) -> usize
    requires { (t : Tree) × Holds words.now count t × (marks t ≡ 0) }
    ensures { (t : Tree) → Holds words.now count t → marks t ≡ 0 → result ≡ nodes (what_stands_at t path.now) }
{
    if count == 0 {
        return 0;
    }
    let end = reach(words, count, path);
    if end.names < path.len() {
        0
    } else {
        Node::at(words, end.at).node_count()
    }
}
