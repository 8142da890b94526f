// The service file: three trees in one area, and the rounds that are drawn from them.
#![tactic(auto)]

ghost use Rattle.std.specs.Prelude.{◌≡◌, ℕ, take, Ok, vec_len};
ghost use Rattle.refusals.specs.Output.{told as told_length, left as left_in};
ghost use Rattle.records.specs.Writing.{written};
ghost use Rattle.records.specs.Reading.{says};
ghost use Rattle.model.specs.Trees.{marks as marks_of};
ghost use Rattle.area.specs.Layout.{limit_of};
ghost use Rattle.ledger.specs.Answers.{load_answer, put_answer, strike_answer, draw_answer, left, told};
ghost use Rattle.ledger.specs.Ledger.{start, file, drawn, held, refusal_of};
ghost use Rattle.text.specs.Report.{report as report_of};
ghost use Rattle.service.specs.Service.{trees, limit as file_limit, of_file, before, came, of_round, round_limit, shown as shown_in, pick, kind_of, wanted_of, reported};

use area::{Area, Table};
use editing::adopt;
use ledger::Side;
use merging::Sizes;
use obeying::{class_at, read_copy};
use refusals::{Refusal, Whose};
use rules::Rulebook;
use text::write_refusal_line;
use types::{Change, Place, Shown};

mod copies;
mod drawing;
mod edits;
mod paths;
mod shown;
mod types;

pub use types::{File, Round};

impl File {
    // Makes a file over an area of any length. It holds three missing trees.
    pub fn new(words: Vec<u32>) -> File
        ensures state { of_file result ≡ start }
        ensures limit { file_limit result ≡ limit_of (vec_len words) }
    {
        File {
            area: Area::new(words),
            sizes: Sizes {
                archive: 0,
                field: 0,
                bench: 0,
            },
        }
    }

    // Replaces all three trees by those of record files. A refused load changes nothing.
    pub fn load<R: Rulebook>(
        &mut self,
        rules: &R,
        archive: &[u8],
        field: &[u8],
        bench: &[u8],
    ) -> Result<(), Refusal>
        ensures answer { result ≡ told (load_answer (R.meaning rules.now) (file_limit self.old) archive.now field.now bench.now) }
        ensures state { trees self.new ≡ left (trees self.old) (load_answer (R.meaning rules.now) (file_limit self.old) archive.now field.now bench.now) }
        ensures limit { file_limit self.new ≡ file_limit self.old }
    {
        let views = loading::load(rules, &mut self.area, archive, field, bench)?;
        self.sizes = loading::counts(views);
        Ok(())
    }

    // Sets the tree of a record file at a path of a side's copy. A refused put changes nothing.
    pub fn put<R: Rulebook>(
        &mut self,
        rules: &R,
        side: Side,
        path: &[u32],
        bytes: &[u8],
    ) -> Result<(), Refusal>
        ensures answer { result ≡ told (put_answer (R.meaning rules.now) (file_limit self.old) (trees self.old) side path.now bytes.now) }
        ensures state { trees self.new ≡ left (trees self.old) (put_answer (R.meaning rules.now) (file_limit self.old) (trees self.old) side path.now bytes.now) }
        ensures limit { file_limit self.new ≡ file_limit self.old }
    {
        self.both_obey(rules)?;
        self.lead(side, path, self.has_parent(side, path))?;
        self.parent_allows(rules, side, path, Change::Put)?;
        let class = class_at(rules, path);
        let view = read_copy(rules, class, bytes, Whose::Brought, path.len())?;
        self.replace(side, path, view)
    }

    // Takes away what stands at a path of a side's copy. A refused strike changes nothing.
    pub fn strike<R: Rulebook>(
        &mut self,
        rules: &R,
        side: Side,
        path: &[u32],
    ) -> Result<(), Refusal>
        ensures answer { result ≡ told (strike_answer (R.meaning rules.now) (trees self.old) side path.now) }
        ensures state { trees self.new ≡ left (trees self.old) (strike_answer (R.meaning rules.now) (trees self.old) side path.now) }
        ensures limit { file_limit self.new ≡ file_limit self.old }
    {
        self.both_obey(rules)?;
        self.lead(side, path, self.stands(side, path))?;
        self.parent_allows(rules, side, path, Change::Strike)?;
        self.renew(side, path, 0);
        Ok(())
    }

    // Turns the file into a round. A refused draw gives a round too: its outcome is the file's own trees.
    pub fn draw<R: Rulebook>(mut self, rules: &R) -> Round
        ensures state { of_round result ≡ drawn (trees self) (draw_answer (R.meaning rules.now) (file_limit self) (trees self)) }
        ensures limit { round_limit result ≡ file_limit self }
    {
        let drawn = self.draw_beside(rules);
        Round { file: self, drawn }
    }

    // The three trees.
    fn trees(&self) -> Shown<'_>
        ensures { shown_in result ≡ trees self.now }
    {
        Shown {
            area: &self.area,
            place: Place::Own,
            sizes: self.sizes,
        }
    }

    // Writes one of the three trees as a record file, and answers its length. The bytes behind it stay. An output that is too short stays as it was.
    // Read as a load reads it, what was written is the same tree.
    pub fn write_out(&self, table: Table, out: &mut [u8]) -> Result<usize, Refusal>
        ensures answer { result ≡ told_length (written (pick table (trees self.now)) (kind_of table)) out.old }
        ensures output { out.new ≡ left_in (written (pick table (trees self.now)) (kind_of table)) out.old }
        ensures reads_back { (n : ℕ) → result ≡ Ok n → says (take n out.new) (wanted_of table) ≡ Ok (pick table (trees self.now)) }
    {
        self.trees().write_out(table, out)
    }

    // Writes the text report: the number of marks in the archive and the three trees. Answers its length. The bytes behind it stay. An output that
    // is too short stays as it was.
    pub fn report(&self, out: &mut [u8]) -> Result<usize, Refusal>
        ensures answer { result ≡ told_length (report_of (trees self.now)) out.old }
        ensures output { out.new ≡ left_in (report_of (trees self.now)) out.old }
    {
        self.trees().report(out)
    }
}

impl Round {
    // Turns the round into a file with the outcome.
    pub fn adopt(self) -> File
        ensures state { of_file result ≡ file (held (of_round self)) }
        ensures limit { file_limit result ≡ round_limit self }
    {
        let Round { mut file, drawn } = self;
        let Ok(new) = drawn else {
            return file;
        };
        adopt(&mut file.area, Table::Archive, new.archive);
        adopt(&mut file.area, Table::Field, new.field);
        adopt(&mut file.area, Table::Bench, new.bench);
        file.sizes = new;
        file
    }

    // Turns the round into the file that it was drawn from.
    pub fn drop(self) -> File
        ensures state { of_file result ≡ file (before self) }
        ensures limit { file_limit result ≡ round_limit self }
    {
        let Round { file, drawn: _ } = self;
        file
    }

    // Why the draw was refused, if it was.
    pub fn refusal(&self) -> Option<Refusal>
        ensures { result ≡ refusal_of (came self.now) }
    {
        self.drawn.err()
    }

    // The three trees of the outcome; after a refused draw they are the file's.
    fn held(&self) -> Shown<'_>
        ensures { shown_in result ≡ held (of_round self.now) }
    {
        match self.drawn {
            Ok(new) => Shown {
                area: &self.file.area,
                place: Place::Outcome,
                sizes: new,
            },
            Err(_) => self.file.trees(),
        }
    }

    // The number of marks in the archive of the outcome.
    pub fn marks(&self) -> usize
        ensures { result ≡ marks_of (held (of_round self.now)).archive }
    {
        self.held().tree(Table::Archive).mark_count()
    }

    // Writes one of the three trees of the outcome as a record file, as a file does.
    pub fn write_out(&self, table: Table, out: &mut [u8]) -> Result<usize, Refusal>
        ensures answer { result ≡ told_length (written (pick table (held (of_round self.now))) (kind_of table)) out.old }
        ensures output { out.new ≡ left_in (written (pick table (held (of_round self.now))) (kind_of table)) out.old }
        ensures reads_back { (n : ℕ) → result ≡ Ok n → says (take n out.new) (wanted_of table) ≡ Ok (pick table (held (of_round self.now))) }
    {
        self.held().write_out(table, out)
    }

    // Writes the text report: the number of marks and the three trees of the outcome, or the line of the refusal. Answers its length. The bytes
    // behind it stay. An output that is too short stays as it was.
    pub fn report(&self, out: &mut [u8]) -> Result<usize, Refusal>
        ensures answer { result ≡ told_length (reported (came self.now)) out.old }
        ensures output { out.new ≡ left_in (reported (came self.now)) out.old }
    {
        if let Err(refusal) = self.drawn {
            return write_refusal_line(refusal, out);
        }
        self.held().report(out)
    }
}
