// The text form of stored trees and of refusals, and the report of a round.
#![tactic(auto)]

ghost use Rattle.std.specs.Prelude.{◌≡◌, ℕ, ◌^◌, ◌<◌, List, length};
ghost use Rattle.refusals.specs.Output.{told, left};
ghost use Rattle.model.specs.Round.{outcome};
ghost use Rattle.stored.specs.Nodes.{tree_held};
ghost use Rattle.text.specs.Text.{text, line, refusal_line};
ghost use Rattle.text.specs.Report.{report};
ghost use Rattle.text.specs.Reporting.{reported};
ghost use Rattle.text.specs.Worked.{WorkedTexts};
ghost use Rattle.text.specs.Reported.{WorkedReports};
ghost use Rattle.text.specs.Output.{laid, Laid};

use output::Output;
use refusals::{Reason, Refusal, Whose};
use stored::Held;

mod output;

// What can be written: it lays its bytes into an output.
trait Lay {
    ghost bytes: { Self → List ℕ };

    fn lay(&self, out: &mut Output)
        ensures laid { Laid out.old (bytes self.now) out.new }
        ensures short { length (bytes self.now) < 2 ^ 64 };
}

impl Lay for Held<'_> {
    ghost bytes = { λ tree. text (tree_held tree) };

    fn lay(&self, out: &mut Output) {
        out.put_text(*self);
    }
}

impl Lay for Refusal {
    ghost bytes = { line };

    fn lay(&self, out: &mut Output) {
        out.put_line(*self);
    }
}

// The line of a refusal with its newline.
#[derive(Clone, Copy)]
struct Ended(Refusal);

impl Lay for Ended {
    ghost bytes = { λ line. refusal_line line.0 };

    fn lay(&self, out: &mut Output) {
        out.put_line(self.0);
        out.put(b'\n');
    }
}

// The three trees that a round came to.
#[derive(Clone, Copy)]
struct Report<'a> {
    archive: Held<'a>,
    field: Held<'a>,
    bench: Held<'a>,
}

impl Lay for Report<'_> {
    ghost bytes = { reported };

    fn lay(&self, out: &mut Output) {
        out.put_field(b"marks ", self.archive.mark_count());
        out.end_line();
        out.put_labelled(b"archive ", self.archive);
        out.put_labelled(b"field ", self.field);
        out.put_labelled(b"bench ", self.bench);
    }
}

// Lays the bytes into an output from its start on, and answers how many they are.
fn lay_all<L: Lay>(what: &L, out: &mut [u8]) -> usize
    ensures length { result ≡ length (L.bytes what.now) }
    ensures output { out.new ≡ laid out.old 0 (L.bytes what.now) }
{
    let mut output = Output { bytes: out, at: 0 };
    what.lay(&mut output);
    output.at
}

// Counts the bytes first and then writes them, if there is room, and answers how many they are. An output that is too short stays as it was.
fn write<L: Lay>(what: &L, out: &mut [u8]) -> Result<usize, Refusal>
    ensures answer { result ≡ told (L.bytes what.now) out.old }
    ensures output { out.new ≡ left (L.bytes what.now) out.old }
{
    let needed = lay_all(what, &mut []);
    if needed <= out.len() {
        lay_all(what, out);
        Ok(needed)
    } else {
        Err(Reason::Output.refuse(Whose::Nobody, needed))
    }
}

// Writes the text form of a tree, and answers its length. An output that is too short stays as it was.
pub fn write_text(tree: Held, out: &mut [u8]) -> Result<usize, Refusal>
    ensures answer { result ≡ told (text (tree_held tree.entry)) out.old }
    ensures output { out.new ≡ left (text (tree_held tree.entry)) out.old }
{
    write(&tree, out)
}

// Writes the line of a refusal, and answers its length. An output that is too short stays as it was.
pub fn write_line(refusal: Refusal, out: &mut [u8]) -> Result<usize, Refusal>
    ensures answer { result ≡ told (line refusal) out.old }
    ensures output { out.new ≡ left (line refusal) out.old }
{
    write(&refusal, out)
}

// Writes the line of a refusal and its newline, and answers their length. An output that is too short stays as it was.
pub fn write_refusal_line(refusal: Refusal, out: &mut [u8]) -> Result<usize, Refusal>
    ensures answer { result ≡ told (refusal_line refusal) out.old }
    ensures output { out.new ≡ left (refusal_line refusal) out.old }
{
    write(&Ended(refusal), out)
}

// Writes the report of a round that came to these three trees, and answers its length. An output that is too short stays as it was.
pub fn write_report(
    archive: Held,
    field: Held,
    bench: Held,
    out: &mut [u8],
) -> Result<usize, Refusal>
    ensures answer { result ≡ told (report (outcome (tree_held archive.entry) (tree_held field.entry) (tree_held bench.entry))) out.old }
    ensures output { out.new ≡ left (report (outcome (tree_held archive.entry) (tree_held field.entry) (tree_held bench.entry))) out.old }
{
    let trees = Report {
        archive,
        field,
        bench,
    };
    write(&trees, out)
}

// The text form on examples.
pub fn worked_texts()
    ensures { WorkedTexts }
{}

// The line of a refusal and a report on examples.
pub fn worked_reports()
    ensures { WorkedReports }
{}
