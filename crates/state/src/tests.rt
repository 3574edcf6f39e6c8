// What a call asks of the state before anything else; see specs/Tests.antt.
ghost use Rattle.std.specs.Prelude.{◌≡◌};
ghost use Rattle.page.specs.Page.{page_of};
ghost use Rattle.state.specs.Pen.{valid_pen};
ghost use Rattle.state.specs.Tests.{listed_rows, listed_columns, listed_size, size_fits, cursor_fits};
ghost use Rattle.state.specs.Tests.{stops_fit, valid_message, valid_state};

use crate::{Cursor, Locks, Size, State};
use page::{Attribute, Mark};

// A page may have 24, 27 or 48 rows. (The next is of this shape: each is the definition of its name.)
fn is_listed_rows(rows: usize) -> bool
    ensures { result ≡ listed_rows rows }
{
    matches!(rows, 24 | 27 | 48)
}

// And 80, 132 or 160 columns, any with any.
fn is_listed_columns(columns: usize) -> bool
    ensures { result ≡ listed_columns columns }
{
    matches!(columns, 80 | 132 | 160)
}

// The cursor is on the page.
fn cursor_fits(size: Size, cursor: Cursor) -> bool
    ensures { result ≡ cursor_fits size cursor }
{
    (1..=size.rows).contains(&cursor.row) && (1..=size.columns).contains(&cursor.column)
}

// No tab stop is past the last column.
fn stops_fit(columns: usize, stops: [bool; 160]) -> bool
    ensures { result ≡ stops_fit columns stops }
{
    let mut fit = true;
    for stop in &stops[columns.min(160)..] { // to the end: then the compiler takes many columns at a time
        fit &= !*stop;
    }
    fit
}

// A pen in range: marks that a cell may have, without modified.
fn is_valid_pen(pen: Mark) -> bool
    ensures { result ≡ valid_pen pen }
{
    page::is_valid_mark(pen) && !page::has_attribute(pen, Attribute::Modified)
}

// A message in range, 0 to 4, and no byte where there is none.
fn is_valid_message(locks: Locks) -> bool
    ensures { result ≡ valid_message locks }
{
    match locks.message {
        0 => locks.byte == 0,
        message => message <= 4,
    }
}

impl Size {
    // Whether it is one of the nine sizes.
    pub fn is_listed(self) -> bool
        ensures { result ≡ listed_size self }
    {
        is_listed_rows(self.rows) && is_listed_columns(self.columns)
    }

    // Document 01's number 1 is given where this is false.
    pub fn fits(self, characters: &[u8], marks: &[Mark]) -> bool
        ensures { result ≡ size_fits self (page_of characters.now marks.now) }
    {
        self.is_listed()
            && characters.len() == self.rows * self.columns
            && marks.len() == self.rows * self.columns
    }
}

impl State {
    // Document 01's number 2 asks this of the state.
    pub fn is_valid(self) -> bool
        ensures { result ≡ valid_state self }
    {
        cursor_fits(self.size, self.cursor)
            && stops_fit(self.size.columns, self.stops)
            && is_valid_pen(self.modes.pen)
            && is_valid_message(self.locks)
            && self.half.is_valid()
    }
}
