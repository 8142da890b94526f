// The three trees of a service file, and what there is one of for each.
#![tactic(auto)]

ghost use Rattle.std.specs.Prelude.{◌≡◌};
ghost use Rattle.tables.specs.Pick.{pick};

// The three trees that a service file keeps.
#[derive(Clone, Copy, PartialEq, Eq, Debug)]
pub enum Table {
    Archive = 0,
    Field = 1,
    Bench = 2,
}

// One of something for each table.
#[derive(Clone, Copy, PartialEq, Eq, Debug, Drop)]
pub struct Three<T> {
    pub archive: T,
    pub field: T,
    pub bench: T,
}

impl<T: Copy> Three<T> {
    // The one of a table.
    pub fn get(self, table: Table) -> T
        ensures { result ≡ pick table self }
    {
        match table {
            Table::Archive => self.archive,
            Table::Field => self.field,
            Table::Bench => self.bench,
        }
    }
}

impl<T> Three<T> {
    // What a function makes of each.
    pub fn map<U, F: Fn(T) -> U>(self, f: F) -> Three<U>
        requires archive { F.pre f self.archive }
        requires field { F.pre f self.field }
        requires bench { F.pre f self.bench }
        ensures archive { F.post f self.archive result.archive }
        ensures field { F.post f self.field result.field }
        ensures bench { F.post f self.bench result.bench }
    {
        Three {
            archive: f(self.archive),
            field: f(self.field),
            bench: f(self.bench),
        }
    }
}
