// A terminal drawn as text, so that a person can read it and a program can compare it; see specs/Drawing.antt.
// Every function writes into a lent text from a place on, and gives the place after.
#![tactic(auto)]

ghost use Rattle.std.specs.Prelude.{List, ◌≡◌, ℕ, ◌+◌, ◌*◌, ◌<◌, ◌≤◌, length};
ghost use Rattle.words.specs.Choice.{If◌then◌else◌};
ghost use Rattle.words.specs.Output.{Wrote};
ghost use Rattle.drawing.specs.Drawing.{numbered, flagged, spaced, pair_line, pen_line, locks_line};
ghost use Rattle.drawing.specs.Drawing.{stop_of, all_stops, stops_line, all_arguments, half_line, state_lines};
ghost use Rattle.drawing.specs.Drawing.{character_line, mark_line, row_lines, drawn, FiveDigitsEach};

use page::Mark;
use sequence::HalfRead;
use state::{Locks, Modes, State};

// A function, since the contracts of two callers name this choice.
fn byte_if(test: bool, yes: u8, no: u8) -> u8
    ensures { result ≡ (If test then yes else no) }
{
    if test { yes } else { no }
}

fn put_number(text: &mut [u8], at: usize, word: &[u8], number: usize) -> usize
    requires { (number < 100000) × (at + length word.now + 5 ≤ length text.old) }
    ensures { Wrote at (numbered word.now number) text.old result text.new }
{
    let next = output::put_all(text, at, word);
    numerals::put_five(text, next, number)
}

fn put_flag(text: &mut [u8], at: usize, word: &[u8], flag: bool) -> usize
    requires { at + length word.now + 1 ≤ length text.old }
    ensures { Wrote at (flagged word.now flag) text.old result text.new }
{
    let next = output::put_all(text, at, word);
    output::put_byte(text, next, byte_if(flag, b'1', b'0'))
}

// The size's line or the cursor's.
fn put_pair(text: &mut [u8], at: usize, word: &[u8], first: usize, second: usize) -> usize
    requires { (first < 100000) × (second < 100000) × (at + length word.now + 12 ≤ length text.old) }
    ensures { Wrote at (pair_line word.now first second) text.old result text.new }
{
    let gap = put_number(text, at, word, first);
    let end = put_number(text, gap, b" ", second);
    output::put_byte(text, end, b'\n')
}

fn put_modes(text: &mut [u8], at: usize, modes: Modes) -> usize
    requires { at + 26 ≤ length text.old }
    ensures { Wrote at (pen_line modes) text.old result text.new }
{
    let pen = output::put_all(text, at, b"pen ");
    let erasure = numerals::put_hex_pair(text, pen, modes.pen);
    let full = put_flag(text, erasure, b" erasure ", modes.erasure);
    let end = put_flag(text, full, b" full ", modes.full);
    output::put_byte(text, end, b'\n')
}

fn put_locks(text: &mut [u8], at: usize, locks: Locks) -> usize
    requires { at + 38 ≤ length text.old }
    ensures { Wrote at (locks_line locks) text.old result text.new }
{
    let soft = put_flag(text, at, b"manual ", locks.manual);
    let message = put_flag(text, soft, b" soft ", locks.soft);
    let word = put_number(text, message, b" message ", usize::from(locks.message));
    let byte = output::put_all(text, word, b" byte ");
    let end = numerals::put_hex_byte(text, byte, locks.byte);
    output::put_byte(text, end, b'\n')
}

fn put_stop(text: &mut [u8], at: usize, stop: bool) -> usize
    requires { at < length text.old }
    ensures { Wrote at (stop_of stop) text.old result text.new }
{
    output::put_byte(text, at, byte_if(stop, b'T', b'.'))
}

// This one, put_arguments and record::put_stops are each one call, and name what writes an item.
fn put_each_stop(text: &mut [u8], at: usize, stops: [bool; 160]) -> usize
    requires { at + 160 ≤ length text.old }
    ensures { Wrote at (all_stops stops) text.old result text.new }
{
    output::put_each(text, at, &stops, put_stop)
}

fn put_stops(text: &mut [u8], at: usize, stops: [bool; 160]) -> usize
    requires { at + 167 ≤ length text.old }
    ensures { Wrote at (stops_line stops) text.old result text.new }
{
    let each = output::put_all(text, at, b"stops ");
    let end = put_each_stop(text, each, stops);
    output::put_byte(text, end, b'\n')
}

fn put_argument(text: &mut [u8], at: usize, argument: u16) -> usize
    requires { at + 6 ≤ length text.old }
    ensures { Wrote at (spaced argument) text.old result text.new }
{
    put_number(text, at, b" ", usize::from(argument))
}

fn put_arguments(text: &mut [u8], at: usize, arguments: [u16; 8]) -> usize
    requires { at + 48 ≤ length text.old }
    ensures { Wrote at (all_arguments arguments) text.old result text.new }
{
    output::put_each(text, at, &arguments, put_argument)
}

fn put_half(text: &mut [u8], at: usize, half: HalfRead) -> usize
    requires { at + 90 ≤ length text.old }
    ensures { Wrote at (half_line half) text.old result text.new }
{
    let spoilt = put_number(text, at, b"half ", usize::from(half.kind));
    let count = put_flag(text, spoilt, b" spoilt ", half.spoilt);
    let word = put_number(text, count, b" count ", usize::from(half.count));
    let each = output::put_all(text, word, b" arguments");
    let end = put_arguments(text, each, half.arguments);
    output::put_byte(text, end, b'\n')
}

fn put_state(text: &mut [u8], at: usize, state: State) -> usize
    requires five_digits_each { FiveDigitsEach state }
    requires at_in_bounds { at + 357 ≤ length text.old }
    ensures { Wrote at (state_lines state) text.old result text.new }
{
    let cursor = put_pair(text, at, b"size ", state.size.rows, state.size.columns);
    let modes = put_pair(
        text,
        cursor,
        b"cursor ",
        state.cursor.row,
        state.cursor.column,
    );
    let locks = put_modes(text, modes, state.modes);
    let tabs = put_locks(text, locks, state.locks);
    let half = put_stops(text, tabs, state.stops);
    put_half(text, half, state.half)
}

// What a page has in its cells: a row of them is a line.
trait Cell: Copy {
    ghost line: { List Self → List ℕ };

    fn put_row(text: &mut [u8], at: usize, row: &[Self]) -> usize
        requires { at + length (line row.now) ≤ length text.old }
        ensures { Wrote at (line row.now) text.old result text.new };
}

// A character, as it is. The two rows differ in their ends, and in what writes the cells.
impl Cell for u8 {
    ghost line = { character_line };

    fn put_row(text: &mut [u8], at: usize, row: &[u8]) -> usize {
        let characters = output::put_byte(text, at, b'|');
        let bar = output::put_all(text, characters, row);
        output::put_all(text, bar, b"|\n")
    }
}

// A mark, in hexadecimal.
impl Cell for Mark {
    ghost line = { mark_line };

    fn put_row(text: &mut [u8], at: usize, row: &[Mark]) -> usize {
        let digits = output::put_byte(text, at, b':');
        let end = numerals::put_hex_pairs(text, digits, row);
        output::put_byte(text, end, b'\n')
    }
}

// A page's rows, of characters or of marks.
fn put_rows<C: Cell>(text: &mut [u8], at: usize, cells: &[C], rows: usize, columns: usize) -> usize
    requires cells_len { length cells.now ≡ rows * columns }
    requires cells_in_bounds { at + length (row_lines C.line rows columns cells.now) ≤ length text.old }
    ensures { Wrote at (row_lines C.line rows columns cells.now)
        text.old result text.new }
{
    let mut next = at;
    let mut left = cells;
    for _ in 0..rows {
        let (row, later) = left.split_at(columns);
        next = C::put_row(text, next, row);
        left = later;
    }
    next
}

// A terminal's state and page, whose size the lent cells have: two slices, as the entries take them.
pub fn draw(state: State, characters: &[u8], marks: &[Mark], text: &mut [u8], at: usize) -> usize
    requires five_digits_each { FiveDigitsEach state }
    requires characters_len { (length characters.now ≡ state.size.rows * state.size.columns)
        × (length marks.now ≡ state.size.rows * state.size.columns) }
    requires marks_in_bounds { at + length (drawn state characters.now marks.now) ≤ length text.old }
    ensures { Wrote at (drawn state characters.now marks.now)
        text.old result text.new }
{
    let rows = state.size.rows;
    let columns = state.size.columns;
    let first_row = put_state(text, at, state);
    let first_marks = put_rows(text, first_row, characters, rows, columns);
    put_rows(text, first_marks, marks, rows, columns)
}
