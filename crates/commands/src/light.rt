// Events that touch neither page nor tab stops nor output: a run of host bytes does them in place, without handing the
// state around. Which events are light is defined in specs/Light.antt, what they do in specs/Host.antt.
ghost use Rattle.std.specs.Prelude.{◌≡◌, true};
ghost use Rattle.sequence.specs.declared.Event.TheVariants.{Control, EscCommand, BracketCommand};
ghost use Rattle.sequence.specs.Range.{argument_of};
ghost use Rattle.page.specs.Page.{Page};
ghost use Rattle.state.specs.State.{OnPage};
ghost use Rattle.steps.specs.Light.{light_step};
ghost use Rattle.table.specs.PrivateForms.{private_step};
ghost use Rattle.commands.specs.Text.{control_step};
ghost use Rattle.commands.specs.Commands.{esc_step, listed_step, bracket_step};
ghost use Rattle.commands.specs.Host.{event_step};
ghost use Rattle.commands.specs.Light.{is_light, is_light_control, is_light_letter, is_light_final};

use sequence::{Event, HalfRead, Reason};
use state::{Cursor, Size, State};
use steps::Light;

// A match, with a line for each of the definition's. (`is_light` too.)
fn is_light_control(size: Size, cursor: Cursor, code: u8) -> bool
    ensures { result ≡ is_light_control size cursor code }
{
    match code {
        0x09 => false,
        0x0A => cursor.row < size.rows,
        _ => true,
    }
}

fn is_light_letter(letter: u8) -> bool
    ensures { result ≡ is_light_letter letter }
{
    matches!(letter, b'V' | b'W')
}

fn is_light_final(letter: u8) -> bool
    ensures { result ≡ is_light_final letter }
{
    // the range first: most commands are in it, and as one pattern with the others it was tested last
    (b'A'..=b'H').contains(&letter) || matches!(letter, b'd' | b'f' | b'o' | b'm' | b'h' | b'l')
}

// Whether the event is light.
pub fn is_light(size: Size, cursor: Cursor, event: Event) -> bool
    ensures { result ≡ is_light size cursor event }
{
    match event {
        Event::Nothing => true,
        Event::Text(_) => false,
        Event::Control(code) => is_light_control(size, cursor, code),
        Event::EscCommand(letter) => is_light_letter(letter),
        Event::BracketCommand(letter) => is_light_final(letter),
        Event::PrivateCommand(_) => true,
        Event::Refused(_, _) => true,
    }
}

// BS, LF and CR.
fn light_control(state: State, code: u8) -> Light
    requires on_page { OnPage state }
    requires code_value { is_light_control state.size state.cursor code ≡ true }
    ensures { (page : Page) →
        light_step result (record { state = state; page = page })
        ≡ control_step code (record { state = state; page = page }) }
{
    match code {
        0x08 => steps::moves_to(state.left_by(1)),
        0x0A => steps::moves_to(state.down_by(1)),
        _ => steps::moves_to(state.to_margin()),
    }
}

// SPA, and EPA.
fn light_letter(state: State, letter: u8) -> Light
    requires { is_light_letter letter ≡ true }
    ensures { (page : Page) →
        light_step result (record { state = state; page = page })
        ≡ esc_step letter (record { state = state; page = page }) }
{
    match letter {
        b'V' => table::settings::set_area(state, 1),
        _ => table::settings::set_area(state, 0),
    }
}

// SGR, SM and RM, which look at every argument. Apart from `light_final`, which would lay out the record for moves too.
fn light_values(state: State, half: HalfRead, letter: u8) -> Light
    requires { (letter ≡ 0x6D → ⊥) → (letter ≡ 0x68 → ⊥) → letter ≡ 0x6C }
    ensures { (page : Page) →
        light_step result (record { state = state; page = page })
        ≡ listed_step letter half.arguments half.count (record { state = state; page = page }) }
{
    let values = &half.arguments[..usize::from(half.count).min(half.arguments.len())];
    match letter {
        b'm' => table::settings::rendition(state, letter, values), // SGR
        b'h' => table::settings::set_mode(state, letter, true, values), // SM
        _ => table::settings::set_mode(state, letter, false, values), // l: RM
    }
}

// After ESC [; the table is consulted before anything else, and lists each of these.
fn light_final(state: State, half: HalfRead, letter: u8) -> Light
    requires on_page { OnPage state }
    requires light { is_light_final letter ≡ true }
    ensures { (page : Page) →
        light_step result (record { state = state; page = page })
        ≡ bracket_step letter half (record { state = state; page = page }) }
{
    if table::most_arguments(letter) < half.count {
        return Light::Refused(Reason::WrongArguments, letter);
    }
    let arguments = &half.arguments;
    match letter {
        b'o' => table::settings::qualify_area(state, letter, table::value(letter, arguments, 0)), // DAQ
        b'm' | b'h' | b'l' => light_values(state, half, letter),
        _ => table::moves::move_command(state, letter, arguments),
    }
}

// After ESC [ >.
fn private_command(state: State, half: HalfRead, letter: u8) -> Light
    ensures { (page : Page) →
        light_step result (record { state = state; page = page })
        ≡ private_step letter (argument_of half 0) (record { state = state; page = page }) }
{
    table::private_forms::private_command(state, letter, half.arguments[0])
}

// What a light event does. `half` is the half-read record before its byte, which has a command's arguments.
pub fn light_step(state: State, half: HalfRead, event: Event) -> Light
    requires on_page { OnPage state }
    requires light { is_light state.size state.cursor event ≡ true }
    ensures { (page : Page) →
        light_step result (record { state = state; page = page })
        ≡ event_step half event (record { state = state; page = page }) }
{
    match event {
        Event::Nothing => steps::moves_to(state),
        Event::Text(_) => unreachable!(), // this is not light
        Event::Control(code) => light_control(state, code),
        Event::EscCommand(letter) => light_letter(state, letter),
        Event::BracketCommand(letter) => light_final(state, half, letter),
        Event::PrivateCommand(letter) => private_command(state, half, letter),
        Event::Refused(reason, byte) => Light::Refused(reason, byte),
    }
}
