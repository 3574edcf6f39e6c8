// Tab stops, one mark for each of 160 columns; see specs/Tabs.antt.
ghost use Rattle.std.specs.Prelude.{◌≡◌, ◌-◌, ◌≤◌, set};
ghost use Rattle.state.specs.State.{OnPage, with_stops};
ghost use Rattle.state.specs.Tabs.{stop_set, stop_cleared, stops_cleared, stop_right, stop_left, stops_on, stops_back};
ghost use Rattle.state.specs.Tabs.{tabbed_on, tabbed_back};

use crate::State;

// The next tab stop to the right of a column, else the last column.
// (`stop_left` differs in part, direction and edge: a function handed these three would say nothing itself.)
fn stop_right(stops: &[bool; 160], last: usize, column: usize) -> usize
    requires { (1 ≤ column) × (column ≤ last) × (last ≤ 160) }
    ensures { result ≡ stop_right stops.now column (last - column) }
{
    match stops[column..last].iter().position(|stop| *stop) {
        Some(between) => column + between + 1,
        None => last,
    }
}

// The next tab stop to the left of a column, else column 1.
fn stop_left(stops: &[bool; 160], column: usize) -> usize
    requires { (1 ≤ column) × (column ≤ 160) }
    ensures { result ≡ stop_left stops.now column }
{
    match stops[..column - 1].iter().rev().position(|stop| *stop) {
        Some(between) => column - 1 - between,
        None => 1,
    }
}

// So many tab stops on. (The two loops stay: one that takes the step as a closure needs a longer contract than both.)
fn stops_on(stops: &[bool; 160], last: usize, column: usize, n: usize) -> usize
    requires { (1 ≤ column) × (column ≤ last) × (last ≤ 160) }
    ensures { result ≡ stops_on stops.now last column n }
{
    let mut at = column;
    for _ in 0..n {
        if last <= at { // no stop is left to find
            return at;
        }
        at = stop_right(stops, last, at);
    }
    at
}

// So many tab stops back.
fn stops_back(stops: &[bool; 160], column: usize, n: usize) -> usize
    requires { (1 ≤ column) × (column ≤ 160) }
    ensures { result ≡ stops_back stops.now column n }
{
    let mut at = column;
    for _ in 0..n {
        if at <= 1 { // no stop is left to find
            return at;
        }
        at = stop_left(stops, at);
    }
    at
}

impl State {
    // So many tab stops to the right, and not past the last column.
    pub fn tab_on(self, n: usize) -> Self
        requires { OnPage self }
        ensures { result ≡ tabbed_on n self }
    {
        let column = stops_on(&self.stops, self.size.columns, self.cursor.column, n);
        self.moved_to(self.cursor.row, column)
    }

    // So many tab stops to the left, and not past column 1.
    pub fn tab_back(self, n: usize) -> Self
        requires { OnPage self }
        ensures { result ≡ tabbed_back n self }
    {
        let column = stops_back(&self.stops, self.cursor.column, n);
        self.moved_to(self.cursor.row, column)
    }

    // The cursor's column with a tab stop, or without.
    fn with_stop(mut self, stop: bool) -> Self
        requires { OnPage self }
        ensures { result ≡ with_stops self (set self.stops (self.cursor.column - 1) stop) }
    {
        self.stops[self.cursor.column - 1] = stop;
        self
    }

    // A tab stop at the cursor's column.
    pub fn set_stop(self) -> Self
        requires { OnPage self }
        ensures { result ≡ stop_set self }
    {
        self.with_stop(true)
    }

    // No tab stop at the cursor's column.
    pub fn clear_stop(self) -> Self
        requires { OnPage self }
        ensures { result ≡ stop_cleared self }
    {
        self.with_stop(false)
    }

    // No tab stops.
    pub fn clear_stops(self) -> Self
        ensures { result ≡ stops_cleared self }
    {
        State {
            stops: [false; 160],
            ..self
        }
    }
}
