// Text that follows on text, stored in one go; see specs/Text.antt.
ghost use Rattle.std.specs.Prelude.{◌≡◌, ◌+◌, ◌≤◌, length, drop};
ghost use Rattle.state.specs.State.{with_cursor, cursor_at};
ghost use Rattle.steps.specs.Steps.{Valid, terminal_of};
ghost use Rattle.commands.specs.Text.{text_length, after_text};

use page::Mark;
use state::{Cursor, State};

// Where the cursor stands after a run of text, and where the run ends among the bytes.
#[derive(Clone, Copy)]
pub struct TextRun {
    pub cursor: Cursor,
    pub end: usize,
}

fn ended(row: usize, column: usize, at: usize) -> TextRun
    ensures { result ≡ record { cursor = cursor_at row column; end = at } }
{
    let cursor = Cursor { row, column };
    TextRun { cursor, end: at }
}

// The bytes from one on, as far as they are text: each takes the cursor's cell, and the cursor goes on. Row, column and
// cell are counted along: with a state handed around each byte takes half as many instructions again.
pub fn text_run(
    state: State,
    characters: &mut [u8],
    marks: &mut [Mark],
    bytes: &[u8],
    from: usize,
) -> TextRun
    requires valid { Valid (terminal_of state characters.old marks.old) }
    requires from_in_bounds { from ≤ length bytes.now }
    ensures marks_after { terminal_of (with_cursor state result.cursor) characters.new marks.new
        ≡ after_text (drop from bytes.now)
        (terminal_of state characters.old marks.old) }
    ensures end_value { result.end ≡ from + text_length (drop from bytes.now) }
{
    let place = state.place();
    let mut cell = place.cell;
    let mut row = state.cursor.row;
    let mut column = state.cursor.column;
    for at in from..bytes.len() {
        let byte = bytes[at];
        if !sequence::is_text(byte) {
            return ended(row, column, at);
        }
        page::store_text(characters, marks, cell, byte, state.modes.pen);
        cell += 1;
        if column < state.size.columns {
            column += 1;
        } else {
            column = 1;
            if row < state.size.rows {
                row += 1;
            } else { // round the page
                row = 1;
                cell = 0;
            }
        }
    }
    ended(row, column, bytes.len())
}
