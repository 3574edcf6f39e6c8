// A cell with its row and column, counted along: a page is walked without dividing.
#![tactic(auto)]

ghost use Rattle.std.specs.Prelude.{◌≡◌, ◌+◌, ◌-◌, ◌*◌, ◌/◌, ◌%◌, ◌<◌, ◌≤◌, ⊤};
ghost use Rattle.std.specs.Iterator.{at_most};

// A place of a page of so many columns.
#[derive(Clone, Copy)]
pub struct Place {
    pub cell: usize,
    pub row: usize,
    pub column: usize,
    pub columns: usize,
    pub ghost counted: { (row ≡ cell / columns + 1) × (column ≡ cell % columns + 1) },
}

impl Place {
    ghost use Rattle.places.specs.Places.{place_of, cell_at};

    // The first cell of a page, 1;1.
    pub fn first(columns: usize) -> Self
        ensures { result ≡ place_of columns 0 }
    {
        Place {
            cell: 0,
            row: 1,
            column: 1,
            columns,
        }
    }

    // The cell of a row and a column.
    pub fn at(row: usize, column: usize, columns: usize) -> Self
        requires { (1 ≤ row) × (row ≤ 48) × (1 ≤ column) × (column ≤ columns) × (columns ≤ 160) }
        ensures { result ≡ place_of columns (cell_at columns row column) }
    {
        Place {
            cell: (row - 1) * columns + (column - 1),
            row,
            column,
            columns,
        }
    }

    // One past the last cell of so many rows.
    pub fn end(rows: usize, columns: usize) -> Self
        requires { (rows ≤ 48) × (0 < columns) × (columns ≤ 160) }
        ensures { result ≡ place_of columns (rows * columns) }
    {
        Place {
            cell: rows * columns,
            row: rows + 1,
            column: 1,
            columns,
        }
    }

    // The next cell in page order.
    pub fn next(self) -> Self
        requires { self.cell ≤ 7680 }
        ensures { result ≡ place_of self.columns (self.cell + 1) }
    {
        if self.column == self.columns {
            return Place {
                cell: self.cell + 1,
                row: self.row + 1,
                column: 1,
                columns: self.columns,
            };
        }
        Place {
            cell: self.cell + 1,
            row: self.row,
            column: self.column + 1,
            columns: self.columns,
        }
    }

    // The cell before it in page order.
    pub fn back(self) -> Self
        requires { 0 < self.cell }
        ensures { result ≡ place_of self.columns (self.cell - 1) }
    {
        if 1 < self.column {
            return Place {
                cell: self.cell - 1,
                row: self.row,
                column: self.column - 1,
                columns: self.columns,
            };
        }
        Place {
            cell: self.cell - 1,
            row: self.row - 1,
            column: self.columns,
            columns: self.columns,
        }
    }

    // This place and those after it, in page order, on a page of so many cells.
    pub fn onward(self, cells: usize) -> Walk
        ensures { result ≡ record { here = self; cells = cells } }
    {
        Walk { here: self, cells }
    }

    // The places before this one, from the nearest back to the page's first.
    pub fn backward(self) -> WalkBack
        ensures { result ≡ record { here = self } }
    {
        WalkBack { here: self }
    }
}

// The places of a page from one on.
#[derive(Clone, Copy, Drop)]
pub struct Walk {
    here: Place,
    cells: usize,
}

impl Iterator for Walk {
    ghost use Rattle.places.specs.Places.{GivesNext};

    type Item = Place;

    ghost can_next = { λ walk. walk.cells ≤ 7680 };

    ghost next_gives = { GivesNext };

    ghost remaining = { λ walk. at_most (walk.cells - walk.here.cell) };

    fn next(&mut self) -> Option<Place> {
        if self.cells <= self.here.cell {
            return None;
        }
        let here = self.here;
        self.here = here.next();
        Some(here)
    }
}

// The places of a page before one.
#[derive(Clone, Copy, Drop)]
pub struct WalkBack {
    here: Place,
}

impl Iterator for WalkBack {
    ghost use Rattle.places.specs.Places.{GivesBefore};

    type Item = Place;

    ghost can_next = { λ _. ⊤ };

    ghost next_gives = { GivesBefore };

    ghost remaining = { λ walk. at_most walk.here.cell };

    fn next(&mut self) -> Option<Place> {
        if self.here.cell == 0 {
            return None;
        }
        self.here = self.here.back();
        Some(self.here)
    }
}
