#![tactic(auto)]

ghost use Rattle.std.specs.Prelude.{◌≡◌, ◌+◌, ◌*◌, ◌<◌, ◌≤◌, [], ◌∷◌, length, drop, vec_len, slice_index, slice_set};
ghost use Rattle.std.proofs.Math.Seq.{paste};
ghost use Rattle.area.specs.Layout.{limit_of, slot as slot_of, start as start_of, width as width_of};
ghost use Rattle.area.specs.Views.{view, limit as limit_in, Only};

mod regions;
mod types;

pub use regions::Region;
pub use tables::Table;
pub use types::Area;

fn slot(t: Table) -> usize
    ensures { result ≡ slot_of t }
{
    t as usize
}

// Where a region begins, in words for each node of the limit: numbers, since they are the layout of a fixed memory.
fn start(r: Region) -> usize
    ensures { result ≡ start_of r }
{
    match r {
        Region::Tree(t) => 3 * slot(t),
        Region::New(t) => 9 + 6 * slot(t),
        Region::Stack => 27,
        Region::Names => 43,
    }
}

// How long a region is, likewise.
fn width(r: Region) -> usize
    ensures { result ≡ width_of r }
{
    match r {
        Region::Tree(_) => 3,
        Region::New(_) => 6,
        Region::Stack => 16,
        Region::Names => 2,
    }
}

impl Area {
    // Any number of words will do, and what they hold does not matter.
    pub fn new(words: Vec<u32>) -> Area
        ensures { limit_in result ≡ limit_of (vec_len words) }
    {
        let limit = (words.len().saturating_sub(1024) / 64).min(4096);
        Area { words, limit }
    }

    // The most nodes that a tree may have.
    pub fn limit(&self) -> usize
        ensures { result ≡ limit_in self.now }
    {
        self.limit
    }

    // The number of words in a region.
    pub fn size(&self, r: Region) -> usize
        ensures { result ≡ limit_in self.now * width_of r }
    {
        self.part(r).len()
    }

    // The index of a region's first word.
    fn place(&self, r: Region) -> usize
        ensures { result ≡ self.now.limit * start_of r }
    {
        start(r) * self.limit
    }

    // A region, to be read.
    pub fn part(&self, r: Region) -> &[u32]
        ensures words { result.now ≡ view self.now r }
        ensures long { length result.now ≡ limit_in self.now * width_of r }
    {
        let from = self.place(r);
        let to = from + width(r) * self.limit;
        &self.words.as_slice()[from..to]
    }

    // The word at index `i` of a region.
    pub fn get(&self, r: Region, i: usize) -> u32
        requires { i < limit_in self.now * width_of r }
        ensures { result ≡ slice_index (view self.now r) i }
    {
        self.part(r)[i]
    }

    // Puts a word at index `i` of a region.
    pub fn set(&mut self, r: Region, i: usize, x: u32)
        requires { i < limit_in self.old * width_of r }
        ensures here { view self.new r ≡ slice_set (view self.old r) i x }
        ensures only { Only (r ∷ []) self.old self.new }
    {
        let at = self.place(r) + i;
        self.words[at] = x;
    }

    // Copies words from outside into a region, from index `i` on.
    pub fn write(&mut self, r: Region, i: usize, words: &[u32])
        requires { i + length words.now ≤ limit_in self.old * width_of r }
        ensures here { view self.new r ≡ paste (view self.old r) i words.now (length words.now) }
        ensures only { Only (r ∷ []) self.old self.new }
    {
        let first = self.place(r) + i;
        self.words.as_mut_slice()[first..first + words.len()].copy_from_slice(words);
    }

    // Copies `n` words, from index `i` of one region on, to index `j` of another or of the same.
    pub fn copy(&mut self, from: Region, i: usize, to: Region, j: usize, n: usize)
        requires source { i + n ≤ limit_in self.old * width_of from }
        requires target { j + n ≤ limit_in self.old * width_of to }
        ensures here { view self.new to ≡ paste (view self.old to) j (drop i (view self.old from)) n }
        ensures only { Only (to ∷ []) self.old self.new }
    {
        let (source, target) = (self.place(from) + i, self.place(to) + j);
        self.words.copy_within(source..source + n, target);
    }
}
