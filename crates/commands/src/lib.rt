// Document 01, "Reading host bytes" and "Commands": what text, control bytes and commands do to the page.
// What each function leaves is defined in specs/. Text comes in runs (texts.rt), and what changes little is done in
// place (light.rt): the rest is here.
#![tactic(auto)]

mod light;
mod texts;

ghost use Rattle.std.specs.Prelude.{◌≡◌, false, ◌≤◌, ◌+◌, length};
ghost use Rattle.sequence.specs.declared.Event.TheVariants.{Control, EscCommand, BracketCommand};
ghost use Rattle.page.specs.Page.{page_of};
ghost use Rattle.state.specs.declared.State.{State};
ghost use Rattle.steps.specs.Steps.{Valid, cursor_cell, row_start, terminal_of};
ghost use Rattle.steps.specs.Told.{told, told_or, tells, written};
ghost use Rattle.commands.specs.Text.{text_step, line_down, line_up, control_step};
ghost use Rattle.commands.specs.Commands.{fresh_step, esc_step, erasing, erase_part, bracket_step};
ghost use Rattle.commands.specs.Host.{event_step};
ghost use Rattle.commands.specs.Light.{is_light};

pub use light::{is_light, light_step};
use output::NoRoom;
use page::Mark;
use sequence::{Event, HalfRead, Reason};
use state::State;
use steps::Step;
pub use texts::{TextRun, text_run};

// Text: the cursor's cell takes the character, and the cursor goes on.
// (`Valid` is asked, not in a type: calls take state and page from outside, damaged ones too, answered with 2; and a
// struct of the two slices as `&mut` needs two clauses more in every contract, that its references are still the same.)
fn text(state: State, characters: &mut [u8], marks: &mut [Mark], character: u8) -> Step
    requires { Valid (terminal_of state characters.old marks.old) }
    ensures { told result (page_of characters.new marks.new)
        ≡ tells (text_step character (terminal_of state characters.old marks.old)) }
{
    page::store_text(
        characters,
        marks,
        state.place().cell,
        character,
        state.modes.pen,
    );
    steps::stored(state.to_next_cell(), 1, true)
}

// IND and LF.
fn line_down(state: State, characters: &mut [u8], marks: &mut [Mark]) -> Step
    requires { Valid (terminal_of state characters.old marks.old) }
    ensures { told result (page_of characters.new marks.new)
        ≡ tells (line_down (terminal_of state characters.old marks.old)) }
{
    if state.cursor.row < state.size.rows {
        return steps::quiet(state.down_by(1));
    }
    let cells = characters.len();
    page::scroll_up(characters, marks, state.size.columns);
    steps::stored(state, cells, true)
}

// RI: IND turned round. One function with closures for test, move and scroll would be longer than both.
fn line_up(state: State, characters: &mut [u8], marks: &mut [Mark]) -> Step
    requires { Valid (terminal_of state characters.old marks.old) }
    ensures { told result (page_of characters.new marks.new)
        ≡ tells (line_up (terminal_of state characters.old marks.old)) }
{
    if 1 < state.cursor.row {
        return steps::quiet(state.up_by(1));
    }
    let cells = characters.len();
    page::scroll_down(characters, marks, state.size.columns);
    steps::stored(state, cells, true)
}

// RIS: a fresh page is one erased with erasure mode set.
fn fresh(state: State, characters: &mut [u8], marks: &mut [Mark]) -> Step
    requires { Valid (terminal_of state characters.old marks.old) }
    ensures { told result (page_of characters.new marks.new)
        ≡ tells (fresh_step (terminal_of state characters.old marks.old)) }
{
    let cells = characters.len();
    page::erase(characters, marks, 0, cells, true);
    steps::stored(State::fresh(state.size), cells, true)
}

// HT, and LF in the last row; else the control bytes that act are light.
fn control(state: State, characters: &mut [u8], marks: &mut [Mark], byte: u8) -> Step
    requires valid { Valid (terminal_of state characters.old marks.old) }
    requires byte_value { is_light state.size state.cursor (Control byte) ≡ false }
    ensures { told result (page_of characters.new marks.new)
        ≡ tells (control_step byte (terminal_of state characters.old marks.old)) }
{
    if byte == 0x09 {
        return steps::quiet(state.tab_on(1));
    }
    line_down(state, characters, marks)
}

// After ESC, what is not light, but for S, which sends.
// (Here and below a match is on what the host sends, as the definitions: an enum of commands would be one more table.)
fn silent_esc_step(state: State, characters: &mut [u8], marks: &mut [Mark], byte: u8) -> Step
    requires valid { Valid (terminal_of state characters.old marks.old) }
    requires byte_value { (is_light state.size state.cursor (EscCommand byte) ≡ false) × (byte ≡ 0x53 → ⊥) }
    ensures { told result (page_of characters.new marks.new)
        ≡ tells (esc_step byte (terminal_of state characters.old marks.old)) }
{
    match byte {
        b'D' => line_down(state, characters, marks), // IND
        b'E' => line_down(state.to_margin(), characters, marks), // NEL
        b'M' => line_up(state, characters, marks), // RI
        b'H' => steps::quiet(state.set_stop()), // HTS
        b'c' => fresh(state, characters, marks), // RIS
        b'`' => steps::quiet(state.disable_input()), // DMI
        b'b' => steps::quiet(state.enable_input()), // EMI
        _ => steps::refuse(state, Reason::UnknownCommand, byte),
    }
}

// Erasing from one cell to before another, as erasure mode says.
// (Of the three that erase this one counts, `erase_part` takes the argument, `erase_row` says where the row is.)
fn erase_cells(
    state: State,
    characters: &mut [u8],
    marks: &mut [Mark],
    from: usize,
    to: usize,
) -> Step
    requires { (from ≤ to) × (to ≤ length characters.old) × (length marks.old ≡ length characters.old) }
    ensures { told result (page_of characters.new marks.new)
        ≡ tells (erasing from to (terminal_of state characters.old marks.old)) }
{
    let count = page::erase(characters, marks, from, to, state.modes.erasure);
    steps::stored(state, count, state.modes.erasure)
}

// ED and EL, in the cells from `first` to before `end`, among which the cursor's cell is.
fn erase_part(
    state: State,
    characters: &mut [u8],
    marks: &mut [Mark],
    letter: u8,
    what: usize,
    first: usize,
    end: usize,
) -> Step
    requires valid { Valid (terminal_of state characters.old marks.old) }
    requires first_bound { (first ≤ cursor_cell state) × (cursor_cell state + 1 ≤ end) × (end ≤ length marks.old) }
    ensures { told result (page_of characters.new marks.new)
        ≡ tells (erase_part letter what first end (terminal_of state characters.old marks.old)) }
{
    let cell = state.place().cell;
    match what {
        0 => erase_cells(state, characters, marks, cell, end),
        1 => erase_cells(state, characters, marks, first, cell + 1),
        2 => erase_cells(state, characters, marks, first, end),
        _ => steps::refuse(state, Reason::WrongArguments, letter),
    }
}

// EL.
fn erase_row(
    state: State,
    characters: &mut [u8],
    marks: &mut [Mark],
    letter: u8,
    what: usize,
) -> Step
    requires { Valid (terminal_of state characters.old marks.old) }
    ensures { told result (page_of characters.new marks.new)
        ≡ tells (erase_part letter what (row_start state) (row_start state + state.size.columns)
        (terminal_of state characters.old marks.old)) }
{
    let first = state.place().cell - (state.cursor.column - 1);
    erase_part(
        state,
        characters,
        marks,
        letter,
        what,
        first,
        first + state.size.columns,
    )
}

// After ESC: S sends, and its transmission may not fit.
fn esc_step(
    state: State,
    characters: &mut [u8],
    marks: &mut [Mark],
    out: &mut [u8],
    at: usize,
    byte: u8,
) -> Result<Step, NoRoom>
    requires valid { Valid (terminal_of state characters.old marks.old) }
    requires at_in_bounds { (at ≤ length out.old) × (is_light state.size state.cursor (EscCommand byte) ≡ false) }
    ensures { (before : State) →
        record { told = told_or result before (page_of characters.new marks.new); output = out.new }
        ≡ written at out.old
        (terminal_of before characters.old marks.old)
        (esc_step byte (terminal_of state characters.old marks.old)) }
{
    if byte == b'S' {
        return sending::send_block(state, characters, marks, out, at, true);
    }
    Ok(silent_esc_step(state, characters, marks, byte))
}

// After ESC [, what is not light: the table is consulted before anything else.
fn bracket_step(
    state: State,
    half: HalfRead,
    characters: &mut [u8],
    marks: &mut [Mark],
    out: &mut [u8],
    at: usize,
    letter: u8,
) -> Result<Step, NoRoom>
    requires valid { Valid (terminal_of state characters.old marks.old) }
    requires at_in_bounds { (at ≤ length out.old) ×
        (is_light state.size state.cursor (BracketCommand letter) ≡ false) }
    ensures { (before : State) →
        record { told = told_or result before (page_of characters.new marks.new); output = out.new }
        ≡ written at out.old
        (terminal_of before characters.old marks.old)
        (bracket_step letter half (terminal_of state characters.old marks.old)) }
{
    let most = table::most_arguments(letter);
    if most == 0 { // not listed
        return Ok(steps::refuse(state, Reason::UnknownCommand, letter));
    }
    if most < half.count {
        return Ok(steps::refuse(state, Reason::WrongArguments, letter));
    }
    let what = table::value(letter, &half.arguments, 0);
    let cells = characters.len();
    let step = match letter {
        b'I' => steps::quiet(state.tab_on(what)), // CHT
        b'Z' => steps::quiet(state.tab_back(what)), // CBT
        b'W' => table::settings::tab_control(state, letter, what), // CTC
        b'J' => erase_part(state, characters, marks, letter, what, 0, cells), // ED
        b'K' => erase_row(state, characters, marks, letter, what), // EL
        _ => return sending::status_report(state, out, at, letter, what), // n: DSR
    };
    Ok(step)
}

// The step of an event that is not light. `half` is the half-read record before the event's byte, which has a command's
// arguments. A transmission is written into the output from `at` on; where it doesn't fit nothing happens.
pub fn heavy_step(
    state: State,
    half: HalfRead,
    characters: &mut [u8],
    marks: &mut [Mark],
    out: &mut [u8],
    at: usize,
    event: Event,
) -> Result<Step, NoRoom>
    requires valid { Valid (terminal_of state characters.old marks.old) }
    requires at_in_bounds { (at ≤ length out.old) × (is_light state.size state.cursor event ≡ false) }
    ensures { (before : State) →
        record { told = told_or result before (page_of characters.new marks.new); output = out.new }
        ≡ written at out.old
        (terminal_of before characters.old marks.old)
        (event_step half event (terminal_of state characters.old marks.old)) }
{
    // One `Ok` for what can't fail: each takes a state more of the stack.
    let step = match event {
        Event::Text(character) => text(state, characters, marks, character),
        Event::Control(code) => control(state, characters, marks, code),
        Event::EscCommand(letter) => {
            return esc_step(state, characters, marks, out, at, letter);
        }
        Event::BracketCommand(letter) => {
            return bracket_step(state, half, characters, marks, out, at, letter);
        }
        Event::Nothing | Event::PrivateCommand(_) | Event::Refused(_, _) => unreachable!(), // these are light
    };
    Ok(step)
}
