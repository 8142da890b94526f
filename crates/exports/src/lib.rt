// What C and Rust programs call of the library. Its answers are numbers and its arguments slices, since that is the C interface.
#![tactic(auto)]

ghost use Rattle.std.specs.Prelude.{◌≡◌, ◌<◌, length, Some};
ghost use Rattle.refusals.specs.declared.Whose.TheVariants.{Field};
ghost use Rattle.model.specs.Rulebooks.{open_meaning};
ghost use Rattle.records.specs.Reading.{says, then};
ghost use Rattle.records.specs.Views.{trees_of};
ghost use Rattle.obeying.specs.Lawful.{lawful, copy_of};
ghost use Rattle.model.specs.Trees.{Tree};
ghost use Rattle.model.specs.Safety.{Ready};
ghost use Rattle.model.specs.Round.{round as round_of};
ghost use Rattle.merging.specs.Held.{Held, Merged};
ghost use Rattle.exports.specs.Answers.{accepted, rewritten_length, rewritten, Rounded};

use area::Area;
use loading::{counts, load};
use merging::{Sizes, round};
use obeying::read_copy;
use records::{TreeKind, View, Wanted, read};
use refusals::{Refusal, Whose};
use rules::Open;
use std::alloc::Global;
use std::rt::Memory;
use transfer::{store, write};

// As many words hold trees of the most nodes.
const LARGEST_AREA: usize = 263168;

// One more than the number of nodes of a tree that was read, or 0 if it was refused.
fn accepted(answer: Result<View, Refusal>) -> usize
    ensures { result ≡ accepted (trees_of answer.entry) }
{
    match answer {
        Ok(view) => view.count() + 1,
        Err(_) => 0,
    }
}

// One more than the number of nodes of the copy in a record file, or 0 if the file is refused.
#[unsafe(no_mangle)]
pub extern "C" fn panel_read(bytes: &[u8]) -> usize
    ensures { result ≡ accepted (says bytes.now (copy_of Field 0)) }
{
    accepted(read(bytes, Wanted::copy(Whose::Field, 0)))
}

// The same for a copy that is also held to the open rulebook.
#[unsafe(no_mangle)]
pub extern "C" fn panel_obey(bytes: &[u8]) -> usize
    ensures { result ≡ accepted (then (says bytes.now (copy_of Field 0)) (lawful open_meaning (Some 0) Field)) }
{
    accepted(read_copy(&Open, Some(0), bytes, Whose::Field, 0))
}

// Puts the copy of a record file into words, and writes it from there: the length of what is written, or 0, and an output as before, if the file
// is refused or either buffer is too short.
#[unsafe(no_mangle)]
pub extern "C" fn panel_rewrite(bytes: &[u8], words: &mut [u32], out: &mut [u8]) -> usize
    ensures answer { result ≡ rewritten_length (says bytes.now (copy_of Field 0)) (length words.old) out.old }
    ensures output { out.new ≡ rewritten (says bytes.now (copy_of Field 0)) (length words.old) out.old }
{
    let Ok(view) = read(bytes, Wanted::copy(Whose::Field, 0)) else {
        return 0;
    };
    if words.len() < 3 * view.count() {
        return 0;
    }
    store(view, words);
    let tree = stored::Held::new(words, view.count());
    write(tree, TreeKind::Copy, out).unwrap_or(0)
}

// Runs so many rounds of three trees that an area holds, each from the same trees.
fn repeat(area: &mut Area, sizes: Sizes, times: u32) -> Sizes
    requires { (o a b : Tree) × Held area.old sizes o a b × Ready open_meaning (Some 0) o a b }
    ensures { (o a b : Tree) → Held area.old sizes o a b → Ready open_meaning (Some 0) o a b → 0 < times → Merged (round_of open_meaning o a b) area.new result }
{
    // Nothing is indexed: so many rounds are run.
    let mut made = sizes;
    for i in 0..times {
        made = round(&Open, area, sizes);
    }
    made
}

// For measuring: loads three record files into the largest area under the open rulebook, runs so many rounds, and gives one more than the nodes
// of the new archive, or 0 if the files are refused, there is no memory or no round is asked for.
#[unsafe(no_mangle)]
pub extern "C" fn panel_rounds(
    memory: Memory,
    archive: &[u8],
    field: &[u8],
    bench: &[u8],
    times: u32,
) -> usize
    ensures { Rounded archive.now field.now bench.now result }
{
    if times == 0 {
        return 0;
    }
    let Ok(words) = vec![in Global::new(memory); 0u32; LARGEST_AREA] else {
        return 0;
    };
    let mut area = Area::new(words);
    let Ok(views) = load(&Open, &mut area, archive, field, bench) else {
        return 0;
    };
    let made = repeat(&mut area, counts(views), times);
    made.archive + 1
}
