// The texts of a panel's record files.
ghost use Rattle.std.specs.Prelude.{◌≡◌, ◌≤◌, length, Some};
ghost use Rattle.records.specs.Reading.{says, then};
ghost use Rattle.records.specs.Views.{tree_of};
ghost use Rattle.refusals.specs.Output.{told, left};
ghost use Rattle.obeying.specs.Lawful.{lawful, copy_of};
ghost use Rattle.text.specs.Text.{text as text_of};
ghost use Rattle.round.specs.Shown.{an_archive, length_shown, output_shown};

use obeying::read_copy;
use records::{View, Wanted, read};
use refusals::{Refusal, Whose};
use rules::Rulebook;
use stored::Held;
use text::write_text;
use transfer::store;

// Writes the text of the tree of a view; its words go into `words`.
fn view_text(view: View, words: &mut [u32], out: &mut [u8]) -> Result<usize, Refusal>
    requires { 12288 ≤ length words.old }
    ensures answer { result ≡ told (text_of (tree_of view.entry)) out.old }
    ensures output { out.new ≡ left (text_of (tree_of view.entry)) out.old }
{
    store(view, words);
    write_text(Held::new(words, view.count()), out)
}

// Writes the text of the archive of a record file, or says why it is refused; the output then stays as it was.
pub fn archive_text(bytes: &[u8], words: &mut [u32], out: &mut [u8]) -> Result<usize, Refusal>
    requires { 12288 ≤ length words.old }
    ensures answer { result ≡ length_shown (says bytes.now an_archive) out.old }
    ensures output { out.new ≡ output_shown (says bytes.now an_archive) out.old }
{
    let view = read(bytes, Wanted::archive())?;
    view_text(view, words, out)
}

// Writes the text of the copy of a record file that obeys the rulebook, or says why it is refused; the output then stays as it was.
pub fn copy_text<R: Rulebook>(
    rules: &R,
    bytes: &[u8],
    whose: Whose,
    words: &mut [u32],
    out: &mut [u8],
) -> Result<usize, Refusal>
    requires { 12288 ≤ length words.old }
    ensures answer { result ≡ length_shown (then (says bytes.now (copy_of whose 0)) (lawful (R.meaning rules.now) (Some 0) whose)) out.old }
    ensures output { out.new ≡ output_shown (then (says bytes.now (copy_of whose 0)) (lawful (R.meaning rules.now) (Some 0) whose)) out.old }
{
    let view = read_copy(rules, Some(0), bytes, whose, 0)?;
    view_text(view, words, out)
}
