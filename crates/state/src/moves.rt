// Moves of the cursor; see specs/Moves.antt.
ghost use Rattle.std.specs.Prelude.{◌≡◌, ◌≤◌};
ghost use Rattle.state.specs.State.{OnPage, with_cursor, cursor_at};
ghost use Rattle.state.specs.Moves.{back_by, on_by, up_by, down_by, right_by, left_by, to_margin, to_next_cell};

use crate::{Cursor, State};

// From a row or column so many back, not past the first.
fn back_by(at: usize, n: usize) -> usize
    ensures { result ≡ back_by at n }
{
    at.saturating_sub(n).max(1)
}

// From a row or column so many on, not past the last.
fn on_by(at: usize, n: usize, last: usize) -> usize
    requires { at ≤ last }
    ensures { result ≡ on_by at n last }
{
    at.saturating_add(n).min(last)
}

impl State {
    // The cursor at a row and column.
    pub fn moved_to(self, row: usize, column: usize) -> Self
        ensures { result ≡ with_cursor self (cursor_at row column) }
    {
        State {
            cursor: Cursor { row, column },
            ..self
        }
    }

    // Moves of the cursor, which stop at the edge: so many rows up.
    pub fn up_by(self, n: usize) -> Self
        ensures { result ≡ up_by n self }
    {
        let row = back_by(self.cursor.row, n);
        self.moved_to(row, self.cursor.column)
    }

    // So many rows down.
    pub fn down_by(self, n: usize) -> Self
        requires { OnPage self }
        ensures { result ≡ down_by n self }
    {
        let row = on_by(self.cursor.row, n, self.size.rows);
        self.moved_to(row, self.cursor.column)
    }

    // So many columns to the right.
    pub fn right_by(self, n: usize) -> Self
        requires { OnPage self }
        ensures { result ≡ right_by n self }
    {
        let column = on_by(self.cursor.column, n, self.size.columns);
        self.moved_to(self.cursor.row, column)
    }

    // So many columns to the left.
    pub fn left_by(self, n: usize) -> Self
        ensures { result ≡ left_by n self }
    {
        let column = back_by(self.cursor.column, n);
        self.moved_to(self.cursor.row, column)
    }

    // To column 1 of the same row.
    pub fn to_margin(self) -> Self
        ensures { result ≡ to_margin self }
    {
        self.moved_to(self.cursor.row, 1)
    }

    // Text: the next cell in page order, and from the last cell 1;1.
    pub fn to_next_cell(self) -> Self
        requires { OnPage self }
        ensures { result ≡ to_next_cell self }
    {
        if self.cursor.column < self.size.columns {
            return self.moved_to(self.cursor.row, self.cursor.column + 1);
        }
        if self.cursor.row < self.size.rows {
            return self.moved_to(self.cursor.row + 1, 1);
        }
        self.moved_to(1, 1)
    }
}
