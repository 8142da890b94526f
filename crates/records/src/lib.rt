#![tactic(auto)]

ghost use Rattle.std.specs.Prelude.{◌≡◌, ◌-◌, ◌*◌, ◌≤◌, length, Ok, Err, MatchResult, IsOkAnd, IfOk, IfErr};
ghost use Rattle.model.specs.Trees.{Tree as TheTree, nodes};
ghost use Rattle.records.specs.Bytes.{entry_of, entries_of, node_code, tree_code};
ghost use Rattle.records.specs.declared.Elder.TheVariants.{First};
ghost use Rattle.records.specs.Reading.{named, right, read as reads, rests, whole, passed, sealed, tail_of, located, says, no, copy_of, an_archive};
ghost use Rattle.records.specs.Views.{tree_of, last_records, trees_of, LiesIn};
ghost use Rattle.records.specs.Worked.{WorkedFile};
ghost use Rattle.records.specs.Files.{Fits, EndsWith, WrittenIsRead, ReadIsWritten};

use refusals::{Reason, Refusal, Whose};

mod view;

pub use view::View;

// What a record file holds: a copy, or an archive, in which marks may stand.
#[derive(Clone, Copy, PartialEq, Eq, Debug)]
pub enum TreeKind {
    Copy = 1,
    Archive = 2,
}

// What a node record stands for.
#[derive(Clone, Copy, PartialEq, Eq, Debug)]
pub enum NodeKind {
    Tree = 0,
    Mark = 1,
}

// The tree that is wanted of a record file: its kind, whose it is, and how deep its root will stand.
#[derive(Clone, Copy, PartialEq, Eq, Debug)]
pub struct Wanted {
    pub kind: TreeKind,
    pub whose: Whose,
    pub depth: usize,
}

// A node record. Its kind and its last byte are as they stand in a file, which may hold any bytes.
#[derive(Clone, Copy)]
pub struct Entry {
    pub name: u32,
    pub children: u32,
    pub kind: u8,
    pub last: u8,
}

// Who stands before a record among its siblings.
#[derive(Clone, Copy)]
enum Elder {
    // none: it is the root
    Root,
    // none: it is a first child
    First,
    // a sibling of this name
    After(u32),
}

// A reading of the records before the trailer, which begins at `end`.
#[derive(Clone, Copy)]
struct Reading {
    wanted: Wanted,
    end: usize,
}

const MOST_NODES: usize = 4096;

const MOST_DEEP: usize = 32;

// The last byte of every trailer.
pub const VERSION: u8 = 1;

impl TreeKind {
    // The kind as a trailer has it.
    pub fn code(self) -> u8
        ensures { result ≡ tree_code self }
    {
        self as u8
    }
}

impl NodeKind {
    // The kind as a record has it.
    pub fn code(self) -> u8
        ensures { result ≡ node_code self }
    {
        self as u8
    }
}

impl Wanted {
    // The copy whose root will stand at this depth.
    pub fn copy(whose: Whose, depth: usize) -> Wanted
        ensures { result ≡ copy_of whose depth }
    {
        Wanted {
            kind: TreeKind::Copy,
            whose,
            depth,
        }
    }

    // The archive.
    pub fn archive() -> Wanted
        ensures { result ≡ an_archive }
    {
        Wanted {
            kind: TreeKind::Archive,
            whose: Whose::Archive,
            depth: 0,
        }
    }

    fn refuse(self, reason: Reason, place: usize) -> Refusal
        ensures { result ≡ no self reason place }
    {
        reason.refuse(self.whose, place)
    }
}

impl From<[u8; 8]> for Entry {
    ghost from_gives = { λ r e. e ≡ entry_of r };

    fn from(bytes: [u8; 8]) -> Entry {
        Entry {
            name: u32::from_be_bytes([bytes[0], bytes[1], bytes[2], bytes[3]]),
            children: u16::from_be_bytes([bytes[4], bytes[5]]) as u32,
            kind: bytes[6],
            last: bytes[7],
        }
    }
}

impl Elder {
    // Whether the next sibling may have a name.
    fn allows(self, name: u32) -> bool
        ensures { result ≡ named self name }
    {
        match self {
            Elder::Root => name == 0,
            Elder::First => true,
            Elder::After(elder) => elder < name,
        }
    }
}

// Whether a record is right.
fn is_right(kind: TreeKind, elder: Elder, e: Entry) -> bool
    ensures { result ≡ right kind elder e }
{
    let node = e.kind == NodeKind::Tree.code();
    let plain = match kind {
        TreeKind::Copy => node,
        TreeKind::Archive => node || e.kind == NodeKind::Mark.code() && e.children == 0,
    };
    e.last == 0 && plain && elder.allows(e.name)
}

impl Reading {
    // The refusal at the first of the records that are left, or at the trailer if none is.
    fn refuse(&self, reason: Reason, rest: &[[u8; 8]]) -> Refusal
        requires { 8 * length rest.now ≤ self.now.end }
        ensures { result ≡ no self.now.wanted reason (self.now.end - 8 * length rest.now) }
    {
        self.wanted.refuse(reason, self.end - 8 * rest.len())
    }

    // Reads the first of so many siblings, as long as they have no children, and gives the records from there on, how many siblings are left, and after
    // which. It promises that the reading goes on from there to the same answer.
    fn leaves<'a>(
        &self,
        records: &'a [[u8; 8]],
        room: usize,
        count: u32,
    ) -> Result<(&'a [[u8; 8]], u32, Elder), Refusal>
        requires { 8 * length records.now ≤ self.now.end }
        ensures left { IfOk result (λ p. rests (reads self.now.wanted self.now.end room count First (entries_of records.now)) ≡ rests (reads self.now.wanted self.now.end room p.1 p.2 (entries_of p.0.now))) }
        ensures refused { IfErr result (λ e. rests (reads self.now.wanted self.now.end room count First (entries_of records.now)) ≡ Err e) }
        ensures shorter { IfOk result (λ p. length p.0.now ≤ length records.now) }
    {
        let mut rest = records;
        let mut left = count;
        let mut elder = Elder::First;
        // no iterator: where it stops, the records and the siblings that are left are told
        while left > 0 {
            let Some((record, below)) = rest.split_first() else {
                return Err(self.refuse(Reason::Count, rest));
            };
            if room == 0 {
                return Err(self.refuse(Reason::Depth, rest));
            }
            let entry = Entry::from(*record);
            if entry.children > 0 {
                return Ok((rest, left, elder));
            }
            if !is_right(self.wanted.kind, elder, entry) {
                return Err(self.refuse(Reason::Record, rest));
            }
            rest = below;
            left -= 1;
            elder = Elder::After(entry.name);
        }
        Ok((rest, left, elder))
    }

    // Reads so many siblings, each with all below it, where nodes may stand on `room` levels, and gives the records behind them.
    fn siblings<'a>(
        &self,
        records: &'a [[u8; 8]],
        room: usize,
        count: u32,
        first: Elder,
    ) -> Result<&'a [[u8; 8]], Refusal>
        requires { 8 * length records.now ≤ self.now.end }
        ensures answer { MatchResult (rests (reads self.now.wanted self.now.end room count first (entries_of records.now))) (λ es. IsOkAnd result (λ more. entries_of more.now ≡ es)) (λ e. result ≡ Err e) }
        ensures shorter { IfOk result (λ more. length more.now ≤ length records.now) }
    {
        let mut rest = records;
        let mut room = room;
        let mut left = count;
        let mut elder = first;
        while left > 0 {
            let Some((record, below)) = rest.split_first() else {
                return Err(self.refuse(Reason::Count, rest));
            };
            if room == 0 {
                return Err(self.refuse(Reason::Depth, rest));
            }
            let entry = Entry::from(*record);
            if !is_right(self.wanted.kind, elder, entry) {
                return Err(self.refuse(Reason::Record, rest));
            }
            left -= 1;
            if left == 0 {
                // no sibling is to come, so the loop goes on with what is below this one: a call for each level of a chain would be slower
                rest = below;
                room -= 1;
                left = entry.children;
                elder = Elder::First;
            } else {
                let (behind, more, eldest) = self.leaves(below, room - 1, entry.children)?;
                rest = if more > 0 {
                    self.siblings(behind, room - 1, more, eldest)?
                } else {
                    behind
                };
                elder = Elder::After(entry.name);
            }
        }
        Ok(rest)
    }

    // Reads all records as one tree.
    fn whole(&self, records: &[[u8; 8]]) -> Result<(), Refusal>
        requires { 8 * length records.now ≤ self.now.end }
        ensures { result ≡ passed tt (whole self.now.wanted self.now.end (entries_of records.now)) }
    {
        if records.is_empty() {
            return match self.wanted.whose {
                Whose::Brought => Err(self.refuse(Reason::Count, records)),
                _ => Ok(()),
            };
        }
        let room = (MOST_DEEP + 1).saturating_sub(self.wanted.depth);
        let rest = self.siblings(records, room, 1, Elder::Root)?;
        if !rest.is_empty() {
            return Err(self.refuse(Reason::Count, rest));
        }
        Ok(())
    }
}

// Whether a trailer, which is laid out as a record is, is right for a file of so many bytes.
fn is_sealed(kind: TreeKind, len: usize, trailer: Entry) -> bool
    ensures { result ≡ sealed kind len (tail_of trailer) }
{
    let nodes = trailer.children as usize;
    let distance = trailer.name as usize;
    trailer.last == VERSION
        && trailer.kind == kind.code()
        && nodes <= MOST_NODES
        && distance == 8 * nodes + 8
        && distance <= len
}

// The node records of a file whose trailer is right.
fn locate(bytes: &[u8], wanted: Wanted) -> Result<&[[u8; 8]], Refusal>
    ensures { MatchResult (located bytes.now wanted) (λ n. IsOkAnd result (λ records. records.now ≡ last_records bytes.now n)) (λ e. result ≡ Err e) }
{
    let Some((front, trailer)) = bytes.split_last_chunk::<8>() else {
        return Err(wanted.refuse(Reason::Short, bytes.len()));
    };
    let tail = Entry::from(*trailer);
    if !is_sealed(wanted.kind, bytes.len(), tail) {
        return Err(wanted.refuse(Reason::Trailer, front.len()));
    }
    let start = front.len() - 8 * tail.children as usize;
    Ok(front[start..].as_chunks().0)
}

// Reads a record file of any content and length. It is accepted exactly if it ends with the written form of a tree that fits.
pub fn read(bytes: &[u8], wanted: Wanted) -> Result<View<'_>, Refusal>
    ensures answer { trees_of result ≡ says bytes.now wanted }
    ensures place { IfOk result (λ v. LiesIn bytes.now v) }
    ensures complete { (t : TheTree) → Fits wanted t → EndsWith bytes.now t wanted.kind → trees_of result ≡ Ok t }
    ensures faithful { IfOk result (λ v. Fits wanted (tree_of v) × EndsWith bytes.now (tree_of v) wanted.kind) }
{
    let records = locate(bytes, wanted)?;
    let end = bytes.len() - 8;
    Reading { wanted, end }.whole(records)?;
    let start = end - 8 * records.len();
    Ok(View { start, records })
}

impl View<'_> {
    // The number of records, and so of nodes.
    pub fn count(self) -> usize
        ensures { result ≡ nodes (tree_of self.entry) }
    {
        self.records.len()
    }
}

// What is written is read back.
pub fn written_is_read()
    ensures { WrittenIsRead }
{}

// What is read is what was written.
pub fn read_is_written()
    ensures { ReadIsWritten }
{}

// The file of one small copy, byte by byte.
pub fn worked_file()
    ensures { WorkedFile }
{}
