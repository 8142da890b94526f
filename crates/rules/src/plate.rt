// Plate: panels, each with a map of its dead pixels.
ghost use Rattle.std.specs.Prelude.{◌≡◌};
ghost use Rattle.model.specs.Rulebooks.{panel_allowed, rows_allowed, columns_allowed, plate_meaning};
ghost use Rattle.model.proofs.Rulebooks.{plate_bounded, plate_names, plate_trees};

use super::Rulebook;
use super::names::{ascends, four_in_a_row, no_name_above};

// Classes are numbers at the trait, since a rulebook may have any number of them, so that an enum would be made of them and back at each call.

// The class of a panel.
const PANEL: u32 = 0;

// The class of a value, which is one name.
const VALUE: u32 = 1;

// The class of a map, whose names are the rows that have dead pixels.
const ROWS: u32 = 2;

// The class of a row, whose names are its dead columns.
const COLUMNS: u32 = 3;

// The class of what has no names.
const NOTHING: u32 = 4;

// The name of a panel's serial number.
const SERIAL: u32 = 1;

// The name of a panel's map.
const MAP: u32 = 2;

// The name of a panel's exposure, if it has one.
const EXPOSURE: u32 = 3;

const MOST_ROWS: usize = 512;

const MOST_COLUMNS: usize = 16;

// The highest number of a row or of a column.
const LAST_LINE: u32 = 4095;

// Whether these are the names of a panel: a serial number and a map, and perhaps an exposure.
pub fn panel_names(names: &[u32]) -> bool
    ensures { result ≡ panel_allowed names.now }
{
    matches!(names, [SERIAL, MAP] | [SERIAL, MAP, EXPOSURE])
}

// Whether these can be the rows that have dead pixels.
pub fn row_names(names: &[u32]) -> bool
    ensures { result ≡ rows_allowed names.now }
{
    names.len() <= MOST_ROWS && ascends(names) && no_name_above(names, LAST_LINE)
}

// Whether these can be the dead columns of a row: at least one and not too many, and no four side by side.
pub fn column_names(names: &[u32]) -> bool
    ensures { result ≡ columns_allowed names.now }
{
    names.len() >= 1
        && names.len() <= MOST_COLUMNS
        && ascends(names)
        && no_name_above(names, LAST_LINE)
        && !four_in_a_row(names)
}

#[derive(Clone, Copy)]
pub struct Plate;

impl Rulebook for Plate {
    ghost meaning = { λ _. plate_meaning };

    ghost bounded = { λ x. plate_bounded };

    ghost named = { λ x. plate_names };

    ghost peopled = { λ x. plate_trees };

    fn class_count(&self) -> u32 {
        5
    }

    fn class_under(&self, class: u32, name: u32) -> Option<u32> {
        match (class, name) {
            (PANEL, SERIAL | EXPOSURE) => Some(VALUE),
            (PANEL, MAP) => Some(ROWS),
            (VALUE, _) => Some(NOTHING),
            (ROWS, 0..=LAST_LINE) => Some(COLUMNS),
            (COLUMNS, 0..=LAST_LINE) => Some(NOTHING),
            _ => None,
        }
    }

    fn allowed(&self, class: u32, names: &[u32]) -> bool {
        match class {
            PANEL => panel_names(names),
            VALUE => names.len() == 1,
            ROWS => row_names(names),
            COLUMNS => column_names(names),
            NOTHING => names.len() == 0,
            _ => false,
        }
    }
}
