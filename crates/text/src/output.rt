// An output that counts on past its end: what it has no room for is lost.
// It is no `fmt::Write`: `write!` may answer an error, and then promises nothing of what was written.
ghost use Rattle.std.specs.Prelude.{◌≡◌, ◌+◌, ◌≤◌, [], ◌∷◌, ◌++◌, length, codes, decimal};
ghost use Rattle.model.specs.Trees.{depth as depth_of};
ghost use Rattle.stored.specs.Nodes.{tree_of, tree_held};
ghost use Rattle.text.specs.Text.{bare, text, colon, placed, line};
ghost use Rattle.text.specs.Report.{labelled};
ghost use Rattle.text.specs.Output.{Laid};

use itoa::Buffer;
use refusals::Refusal;
use stored::{Held, Node};

#[derive(Drop)]
pub(crate) struct Output<'a> {
    pub(crate) bytes: &'a mut [u8],
    pub(crate) at: usize,
}

// Whether a tree is a node without children.
fn is_bare(tree: Node) -> bool
    ensures { result ≡ bare (tree_of tree.entry) }
{
    !tree.is_mark() && tree.node_count() == 1
}

impl Output<'_> {
    pub(crate) fn put(&mut self, byte: u8)
        ensures { Laid self.old (byte ∷ []) self.new }
    {
        if self.at < self.bytes.len() {
            self.bytes[self.at] = byte;
        }
        self.at = self.at.saturating_add(1);
    }

    pub(crate) fn put_bytes(&mut self, bytes: &[u8])
        ensures { Laid self.old bytes.now self.new }
    {
        for byte in bytes {
            self.put(*byte);
        }
    }

    pub(crate) fn end_line(&mut self)
        ensures { Laid self.old (codes "\n") self.new }
    {
        self.put(b'\n');
    }

    // Writes a number in decimal.
    pub(crate) fn put_number(&mut self, n: usize)
        ensures { Laid self.old (decimal n) self.new }
    {
        let mut digits = Buffer::new();
        self.put_bytes(digits.format(n).as_bytes());
    }

    // Writes a word and a number.
    pub(crate) fn put_field(&mut self, word: &[u8], n: usize)
        ensures { Laid self.old (word.now ++ decimal n) self.new }
    {
        self.put_bytes(word);
        self.put_number(n);
    }

    pub(crate) fn put_line(&mut self, refusal: Refusal)
        ensures laid { Laid self.old (line refusal) self.new }
        ensures short { length (line refusal) ≤ 200 }
    {
        let reason = refusal.reason;
        self.put_field(b"refused ", reason.number() as usize);
        self.put_field(b" layer ", reason.layer().number() as usize);
        self.put_field(b" whose ", refusal.whose.number() as usize);
        self.put_field(b" place ", refusal.place);
    }

    // Writes the colon before the text of a tree that stands at this depth, unless it is the root.
    fn put_colon(&mut self, depth: u32)
        ensures { Laid self.old (colon depth) self.new }
    {
        let colon: &[u8] = if depth == 0 { b"" } else { b":" };
        self.put_bytes(colon);
    }

    // Writes a tree that stands at this depth, and below the root the colon before it; there a tree that is bare has no text. It calls itself for
    // each child.
    pub(crate) fn put_tree(&mut self, tree: Node, depth: u32)
        requires { depth + depth_of (tree_of tree) ≤ 32 }
        ensures { Laid self.old (placed depth (tree_of tree.entry)) self.new }
    {
        if depth > 0 && is_bare(tree) {
            return;
        }
        self.put_colon(depth);
        if tree.is_mark() {
            self.put(b'!');
            return;
        }
        self.put(b'{');
        for (i, child) in tree.children().enumerate() {
            if i > 0 {
                self.put(b',');
            }
            self.put_number(child.name() as usize);
            self.put_tree(child, depth + 1);
        }
        self.put(b'}');
    }

    // Writes a tree that may be missing.
    pub(crate) fn put_text(&mut self, tree: Held)
        ensures { Laid self.old (text (tree_held tree.entry)) self.new }
    {
        match tree.root() {
            Some(root) => self.put_tree(root, 0),
            None => self.put(b'-'),
        }
    }

    // Writes a word and a tree that may be missing, as a line.
    pub(crate) fn put_labelled(&mut self, word: &[u8], tree: Held)
        ensures { Laid self.old (labelled word.now (text (tree_held tree.entry))) self.new }
    {
        self.put_bytes(word);
        self.put_text(tree);
        self.end_line();
    }
}
