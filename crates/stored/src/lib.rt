// Reading trees that stand in words.
#![tactic(auto)]

ghost use Rattle.std.specs.Prelude.{◌≡◌, ◌+◌, [], option_map};
ghost use Rattle.std.specs.Iterator.{YieldsFirstBy, item_count};
ghost use Rattle.model.specs.Trees.{Tree, Forest, nodes, nodes_all, marks, is_mark, same as same_trees};
ghost use Rattle.stored.specs.Words.{Stored, Stands, Standing, Holds, below};
ghost use Rattle.stored.specs.Lookup.{Between, smaller, from_on, starts, place, at_of, is_found};
ghost use Rattle.stored.specs.Nodes.{name_of, tree_of, named, tree_held, entries, siblings_left, every, nodes_left, root_of};

mod types;

pub use types::{Held, Node, Preorder, Siblings};

impl<'a> Node<'a> {
    // The tree that stands at node number `at`.
    pub fn at(words: &'a [u32], at: usize) -> Node<'a>
        requires { Standing words.now at }
        ensures name { (s : Stored) → Stands words.now at s → name_of result ≡ s.name }
        ensures tree { (s : Stored) → Stands words.now at s → tree_of result ≡ s.tree }
    {
        let size = words[3 * at + 1] as usize;
        Node {
            words: &words[3 * at..3 * (at + size)],
        }
    }

    // The name that it stands under.
    pub fn name(self) -> u32
        ensures { result ≡ name_of self.entry }
    {
        self.words[0]
    }

    // The number of its nodes.
    pub fn node_count(self) -> usize
        ensures { result ≡ nodes (tree_of self.entry) }
    {
        self.words[1] as usize
    }

    // Whether it is a mark.
    pub fn is_mark(self) -> bool
        ensures { result ≡ is_mark (tree_of self.entry) }
    {
        self.words[2] == 1
    }

    // Whether it and another tree are the same, whatever names they stand under.
    pub fn same(self, other: Node) -> bool
        ensures { result ≡ same_trees (tree_of self.entry) (tree_of other.entry) }
    {
        self.words[1..] == other.words[1..]
    }

    pub fn children(self) -> Siblings<'a>
        ensures { siblings_left result ≡ entries (below (tree_of self.entry)) }
    {
        Siblings {
            words: &self.words[3..],
        }
    }
}

impl<'a> Iterator for Siblings<'a> {
    type Item = Node<'a>;

    ghost next_gives = { YieldsFirstBy named siblings_left };

    ghost remaining = { item_count siblings_left };

    fn next(&mut self) -> Option<Node<'a>> {
        let words = self.words;
        if words.len() == 0 {
            return None;
        }
        let (first, others) = words.split_at(3 * words[1] as usize);
        self.words = others;
        Some(Node { words: first })
    }
}

impl<'a> Iterator for Preorder<'a> {
    type Item = Node<'a>;

    ghost next_gives = { YieldsFirstBy named nodes_left };

    ghost remaining = { item_count nodes_left };

    fn next(&mut self) -> Option<Node<'a>> {
        let words = self.words;
        if words.len() == 0 {
            return None;
        }
        self.words = &words[3..];
        Some(Node {
            words: &words[..3 * words[1] as usize],
        })
    }
}

impl<'a> Held<'a> {
    // The tree of `count` nodes that the words begin with.
    pub fn new(words: &'a [u32], count: usize) -> Held<'a>
        requires { (t : Tree) × Holds words.now count t }
        ensures { (t : Tree) → Holds words.now count t → tree_held result ≡ t }
    {
        Held {
            words: &words[..3 * count],
        }
    }

    pub fn node_count(self) -> usize
        ensures { result ≡ nodes (tree_held self.entry) }
    {
        self.words.len() / 3
    }

    // The root, if the tree is not missing. It stands under the name 0.
    pub fn root(self) -> Option<Node<'a>>
        ensures { option_map named result ≡ root_of (tree_held self.entry) }
    {
        if self.words.len() == 0 {
            None
        } else {
            Some(Node { words: self.words })
        }
    }

    // Every node, in the order of the words.
    pub fn nodes(self) -> Preorder<'a>
        ensures { nodes_left result ≡ every 0 (tree_held self.entry) [] }
    {
        Preorder { words: self.words }
    }

    pub fn mark_count(self) -> usize
        ensures { result ≡ marks (tree_held self.entry) }
    {
        self.nodes().filter(|node| node.is_mark()).count()
    }
}

// Where a lookup among siblings stopped: at the name, or else at the first larger one or behind them all.
pub type Spot = Result<usize, usize>;

// Looks for a name among the siblings that stand from `from` up to `end`, and stops at the first name that is not smaller.
// A lookup of a larger name can go on from there, so that each sibling is passed once.
pub fn seek(words: &[u32], from: usize, end: usize, wanted: u32) -> Spot
    requires { (f : Forest) × Between words.now from end f }
    ensures stops { (f : Forest) → Between words.now from end f → at_of result ≡ from + nodes_all (smaller wanted f) }
    ensures tells { (f : Forest) → Between words.now from end f → is_found result ≡ starts wanted (from_on wanted f) }
{
    let mut at = from;
    // Positions, and no iterator: callers go on from where it stopped, and keep positions as words of the fixed memory.
    while at < end {
        let tree = Node::at(words, at);
        let here = tree.name();
        if here >= wanted {
            return if here == wanted { Ok(at) } else { Err(at) };
        }
        at += tree.node_count();
    }
    Err(at)
}

// Where the child under a name stands, if the tree at `at` has one.
pub fn child(words: &[u32], at: usize, wanted: u32) -> Option<usize>
    requires { Standing words.now at }
    ensures { (s : Stored) → Stands words.now at s → result ≡ place (below s.tree) wanted (at + 1) }
{
    let end = at + Node::at(words, at).node_count();
    seek(words, at + 1, end, wanted).ok()
}
