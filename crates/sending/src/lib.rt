// What sends: a report, or a block, full or changed. Where the transmission doesn't fit nothing happens: whatever state
// the caller had before, the contracts say that it is left (`before`).
#![tactic(auto)]

ghost use Rattle.std.specs.Prelude.{◌≡◌, false, ◌≤◌, length};
ghost use Rattle.page.specs.Page.{Page, page_of};
ghost use Rattle.state.specs.State.{OnPage};
ghost use Rattle.state.specs.declared.State.{State};
ghost use Rattle.steps.specs.Steps.{Valid, terminal_of};
ghost use Rattle.steps.specs.Told.{told_or, written};
ghost use Rattle.sending.specs.Sending.{ready_report, cursor_report, status_report, send_block};

use output::NoRoom;
use page::Mark;
use sequence::Reason;
use state::State;
use steps::Step;

// A transmission of so many bytes was sent.
fn did_send(state: State, bytes: usize) -> Step
    ensures { result ≡ record { state = state; stored = 0; sent = bytes; refused = false; protection = false } }
{
    Step {
        state,
        stored: 0,
        sent: bytes,
        refused: false,
        protection: false,
    }
}

// ESC [ 0 n.
const READY: [u8; 4] = [0x1B, b'[', b'0', b'n'];

// DSR 5: ready. (Here and below `out` and `at` stay two: `written` says of the whole output what it is after.)
fn ready_report(state: State, out: &mut [u8], at: usize) -> Result<Step, NoRoom>
    requires { at ≤ length out.old }
    ensures { (before : State) (page : Page) →
        record { told = told_or result before page; output = out.new }
        ≡ written at out.old
        (record { state = before; page = page })
        (ready_report (record { state = state; page = page })) }
{
    if out.len() - at < READY.len() {
        return Err(NoRoom);
    }
    output::put_all(out, at, &READY);
    Ok(did_send(state, READY.len()))
}

// DSR 6: CPR, ESC [ row ; column R.
fn cursor_report(state: State, out: &mut [u8], at: usize) -> Result<Step, NoRoom>
    requires on_page { OnPage state }
    requires at_in_bounds { at ≤ length out.old }
    ensures { (before : State) (page : Page) →
        record { told = told_or result before page; output = out.new }
        ≡ written at out.old
        (record { state = before; page = page })
        (cursor_report (record { state = state; page = page })) }
{
    let row = state.cursor.row;
    let column = state.cursor.column;
    let bytes = output::place_length(row, column);
    if out.len() - at < bytes {
        return Err(NoRoom);
    }
    output::put_place(out, at, row, column, b'R');
    Ok(did_send(state, bytes))
}

// DSR: 5 asks for a ready report, 6 for the cursor's place. (Numbers that the host sends, as the definition has them.)
pub fn status_report(
    state: State,
    out: &mut [u8],
    at: usize,
    letter: u8,
    what: usize,
) -> Result<Step, NoRoom>
    requires on_page { OnPage state }
    requires at_in_bounds { at ≤ length out.old }
    ensures { (before : State) (page : Page) →
        record { told = told_or result before page; output = out.new }
        ≡ written at out.old
        (record { state = before; page = page })
        (status_report letter what (record { state = state; page = page })) }
{
    match what {
        5 => ready_report(state, out, at),
        6 => cursor_report(state, out, at),
        _ => Ok(steps::refuse(state, Reason::WrongArguments, letter)),
    }
}

// A full block or a changed one: ESC S sends a full one, key 266 as its mode has it.
pub fn send_block(
    state: State,
    characters: &[u8],
    marks: &mut [Mark],
    out: &mut [u8],
    at: usize,
    full: bool,
) -> Result<Step, NoRoom>
    requires valid { Valid (terminal_of state characters.now marks.old) }
    requires at_in_bounds { at ≤ length out.old }
    ensures { (before : State) →
        record { told = told_or result before (page_of characters.now marks.new); output = out.new }
        ≡ written at out.old
        (terminal_of before characters.now marks.old)
        (send_block full (terminal_of state characters.now marks.old)) }
{
    let bytes = blocks::write_block(out, at, characters, marks, state.size.columns, full)?;
    Ok(did_send(state, bytes))
}
