// The program `round`: reads the three records of a panel and prints their trees, or the first reason to refuse them.
#![tactic(auto)]

ghost use Rattle.std.specs.Prelude.{◌≡◌, ◌≤◌, length, take, IfOk};
ghost use Rattle.refusals.specs.declared.Whose.TheVariants.{Field, Bench};
ghost use Rattle.records.specs.Reading.{says};
ghost use Rattle.round.specs.Shown.{an_archive, a_copy, length_shown, all_shown, TextOf};

use panel::{archive_text, copy_text};
use panels::Panel;
use refusals::{Refusal, Whose};
use rules::Plate;
use std::io;
use std::io::Write;

mod panel;

// Room for the words of any tree that a record file may hold.
const MOST_WORDS: usize = 12288;

// Room for the text of any tree that so many bytes may hold.
const MOST_TEXT: usize = 8192;

// The texts of a panel's three trees.
#[derive(Drop)]
struct Texts {
    archive: Vec<u8>,
    field: Vec<u8>,
    bench: Vec<u8>,
}

// Writes the three texts into buffers and cuts them where the text ends, or gives the first refusal: of the archive, then of the field's copy, then of
// the bench's.
fn describe(panel: &Panel, words: &mut [u32], texts: &mut Texts) -> Result<(), Refusal>
    requires { 12288 ≤ length words.old }
    ensures told { result ≡ all_shown (length_shown (says panel.now.archive.items an_archive) texts.old.archive.items) (length_shown (a_copy Field panel.now.field.items) texts.old.field.items) (length_shown (a_copy Bench panel.now.bench.items) texts.old.bench.items) }
    ensures archive { IfOk result (λ _. TextOf (says panel.now.archive.items an_archive) texts.new.archive.items) }
    ensures field { IfOk result (λ _. TextOf (a_copy Field panel.now.field.items) texts.new.field.items) }
    ensures bench { IfOk result (λ _. TextOf (a_copy Bench panel.now.bench.items) texts.new.bench.items) }
{
    let Texts {
        archive,
        field,
        bench,
    } = texts;
    let length = archive_text(panel.archive.as_slice(), words, archive.as_mut_slice())?;
    archive.truncate(length);
    let copy = panel.field.as_slice();
    let length = copy_text(&Plate, copy, Whose::Field, words, field.as_mut_slice())?;
    field.truncate(length);
    let copy = panel.bench.as_slice();
    let length = copy_text(&Plate, copy, Whose::Bench, words, bench.as_mut_slice())?;
    bench.truncate(length);
    Ok(())
}

fn print_line(rt: &HostRuntime, label: &str, text: &[u8]) -> io::Result<()> {
    let mut out = rt.stdout();
    out.write_all(label.as_bytes())?;
    out.write_all(text)?;
    out.write_all(b"\n")
}

fn print_texts(rt: &HostRuntime, texts: &Texts) -> io::Result<()> {
    print_line(rt, "archive ", texts.archive.as_slice())?;
    print_line(rt, "field ", texts.field.as_slice())?;
    print_line(rt, "bench ", texts.bench.as_slice())
}

fn run(rt: &HostRuntime) -> anyhow::Result<()> {
    let heap = rt.alloc();
    let panel = Panel::read(rt)?;
    let mut words = vec![in heap; 0u32; MOST_WORDS]?;
    let mut texts = Texts {
        archive: vec![in heap; 0; MOST_TEXT]?,
        field: vec![in heap; 0; MOST_TEXT]?,
        bench: vec![in heap; 0; MOST_TEXT]?,
    };
    match describe(&panel, words.as_mut_slice(), &mut texts) {
        Ok(()) => print_texts(rt, &texts)?,
        Err(refusal) => println!(rt; "{refusal}")?,
    }
    Ok(())
}

fn main(rt: HostRuntime) -> anyhow::Result<()> {
    run(&rt)
}
