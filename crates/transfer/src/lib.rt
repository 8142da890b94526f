// Trees go from the bytes of record files into words, and from words into record files.
#![tactic(auto)]

ghost use Rattle.std.specs.Prelude.{◌≡◌, ◌+◌, ◌*◌, ◌≤◌, [], ◌∷◌, ◌++◌, length, take, drop};
ghost use Rattle.model.specs.Trees.{Tree, Forest, nodes, nodes_all, Named, is_name};
ghost use Rattle.records.specs.Bytes.{put_entry, put_all};
ghost use Rattle.records.specs.Writing.{tell, written};
ghost use Rattle.records.specs.Views.{tree_of as tree_shown};
ghost use Rattle.stored.specs.Words.{emit};
ghost use Rattle.stored.specs.Nodes.{name_of, tree_of, tree_held};
ghost use Rattle.transfer.specs.Moves.{Siblings, record_of};
ghost use Rattle.refusals.specs.Output.{told, left};

use records::{Entry, NodeKind, TreeKind, VERSION, View};
use refusals::{Reason, Refusal, Whose};
use stored::{Held, Node};

// Writes the three words of a node, the kind as it stands in the fixed memory.
fn put_node(words: &mut [u32], at: usize, name: u32, size: u32, kind: u32)
    requires { 3 * at + 3 ≤ length words.old }
    ensures { drop (3 * at) words.new ≡ name ∷ size ∷ kind ∷ drop (3 * (at + 1)) words.old }
{
    words[3 * at..3 * at + 3].copy_from_slice(&[name, size, kind]);
}

// The node behind `k` trees, the first of which stands at `at`.
fn past(words: &[u32], at: usize, k: u32) -> usize
    requires { (f : Forest) × Siblings words.now at k f }
    ensures { (f : Forest) → Siblings words.now at k f → result ≡ at + nodes_all f }
{
    // As many as there are children, and no iterator: the trees behind them are others'.
    let mut pos = at;
    for _ in 0..k {
        pos += Node::at(words, pos).node_count();
    }
    pos
}

// Puts the tree of a view into words, from the last record back to the first. The words behind it stay.
pub fn store(view: View, words: &mut [u32])
    requires { 3 * nodes (tree_shown view) ≤ length words.old }
    ensures { words.new ≡ emit (tree_shown view.entry) 0 (drop (3 * nodes (tree_shown view.entry)) words.old) }
{
    let count = view.count();
    for i in (0..count).rev() {
        let e = Entry::from(view.records[i]);
        let end = past(words, i + 1, e.children);
        put_node(words, i, e.name, (end - i) as u32, e.kind as u32);
    }
}

// The record of a tree's own node. It is no `From`, since both types are of other crates.
fn record_of(tree: Node) -> Entry
    ensures { result ≡ record_of (name_of tree.entry) (tree_of tree.entry) }
{
    let kind = if tree.is_mark() {
        NodeKind::Mark
    } else {
        NodeKind::Tree
    };
    Entry {
        name: tree.name(),
        children: tree.children().count() as u32,
        kind: kind.code(),
        last: 0,
    }
}

// The bytes of a record. Of the number of children it has the two low bytes.
fn bytes_of(e: Entry) -> [u8; 8]
    ensures { result ≡ put_entry e [] }
{
    let [a, b, c, d] = e.name.to_be_bytes();
    let [_, _, high, low] = e.children.to_be_bytes();
    [a, b, c, d, high, low, e.kind, e.last]
}

// Writes record number `i`.
fn put_record(out: &mut [u8], i: usize, e: Entry)
    requires { 8 * i + 8 ≤ length out.old }
    ensures { out.new ≡ take (8 * i) out.old ++ put_entry e (drop (8 * (i + 1)) out.old) }
{
    out[8 * i..8 * i + 8].copy_from_slice(&bytes_of(e));
}

// Writes the records of a tree.
fn put_records(tree: Held, out: &mut [u8])
    requires { 8 * nodes (tree_held tree) ≤ length out.old }
    ensures { out.new ≡ put_all (tell (tree_held tree.entry) 0 []) (drop (8 * nodes (tree_held tree.entry)) out.old) }
{
    for (i, node) in tree.nodes().enumerate() {
        put_record(out, i, record_of(node));
    }
}

// Writes the record file of a tree, and says how many bytes it has. The bytes behind it stay. Where the output is too short nothing is
// written, and the refusal says how many bytes are needed. The names have 32 bits, so that the records hold them.
pub fn write(tree: Held, kind: TreeKind, out: &mut [u8]) -> Result<usize, Refusal>
    ensures answer { result ≡ told (written (tree_held tree.entry) kind) out.old }
    ensures after { out.new ≡ left (written (tree_held tree.entry) kind) out.old }
    ensures narrow { Named is_name (tree_held tree.entry) }
{
    let count = tree.node_count();
    let size = 8 * count + 8;
    if out.len() < size {
        return Err(Reason::Output.refuse(Whose::Nobody, size));
    }
    let trailer = Entry {
        name: size as u32,
        children: count as u32,
        kind: kind.code(),
        last: VERSION,
    };
    put_records(tree, out);
    put_record(out, count, trailer);
    Ok(size)
}
