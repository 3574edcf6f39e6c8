// Document 01, "Commands": the commands of ESC [ that only move the cursor, but for tabs.
ghost use Rattle.std.specs.Prelude.{◌≡◌, true};
ghost use Rattle.page.specs.Page.{Page};
ghost use Rattle.state.specs.State.{OnPage};
ghost use Rattle.steps.specs.Light.{light_step};
ghost use Rattle.table.specs.Moves.{is_plain_move, move_step, to_column, to_row, to_place, kept_column};

use sequence::Reason;
use state::{Cursor, State};
use steps::Light;

// CHA: past the last column it is ignored.
fn to_column(state: State, column: usize) -> Light
    ensures { (page : Page) →
        light_step result (record { state = state; page = page })
        ≡ to_column column (record { state = state; page = page }) }
{
    if column <= state.size.columns {
        return Light::Cursor(Cursor {
            column,
            ..state.cursor
        });
    }
    steps::moves_to(state)
}

// VPA: past the last row it is refused.
fn to_row(state: State, letter: u8, row: usize) -> Light
    ensures { (page : Page) →
        light_step result (record { state = state; page = page })
        ≡ to_row letter row (record { state = state; page = page }) }
{
    if state.size.rows < row {
        return Light::Refused(Reason::WrongArguments, letter);
    }
    Light::Cursor(Cursor {
        row,
        ..state.cursor
    })
}

// CUP and HVP: past the page they are refused.
fn to_place(state: State, letter: u8, row: usize, column: usize) -> Light
    ensures { (page : Page) →
        light_step result (record { state = state; page = page })
        ≡ to_place letter row column (record { state = state; page = page }) }
{
    if row <= state.size.rows && column <= state.size.columns {
        return Light::Cursor(Cursor { row, column });
    }
    Light::Refused(Reason::WrongArguments, letter)
}

// HVP's column: 0 with a row above 0 keeps the column.
fn kept_column(row: u16, given: u16, column: usize, present: usize) -> usize
    ensures { result ≡ kept_column row given column present }
{
    if given == 0 && 0 < row {
        return present;
    }
    column
}

// After ESC [, the moves that look at no tab stop: A to H, d and f.
// (A match on the byte, as `move_step` has it: an enum of commands would be one more table, from bytes to variants.)
pub fn move_command(state: State, letter: u8, arguments: &[u16]) -> Light
    requires on_page { OnPage state }
    requires plain_move { is_plain_move letter ≡ true }
    ensures { (page : Page) →
        light_step result (record { state = state; page = page })
        ≡ move_step letter arguments.now (record { state = state; page = page }) }
{
    let first = crate::value(letter, arguments, 0);
    let second = crate::value(letter, arguments, 1);
    let row = crate::argument(arguments, 0);
    let given = crate::argument(arguments, 1);
    match letter {
        b'A' => steps::moves_to(state.up_by(first)), // CUU
        b'B' => steps::moves_to(state.down_by(first)), // CUD
        b'C' => steps::moves_to(state.right_by(first)), // CUF
        b'D' => steps::moves_to(state.left_by(first)), // CUB
        b'E' => steps::moves_to(state.down_by(first).to_margin()), // CNL
        b'F' => steps::moves_to(state.up_by(first).to_margin()), // CPL
        b'G' => to_column(state, first), // CHA
        b'H' => to_place(state, letter, first, second), // CUP
        b'd' => to_row(state, letter, first), // VPA
        // f: HVP
        _ => to_place(
            state,
            letter,
            first,
            kept_column(row, given, second, state.cursor.column),
        ),
    }
}
