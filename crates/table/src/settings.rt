// Document 01, "Commands": the commands of ESC [ that set tab stops, the pen and the mode.
ghost use Rattle.std.specs.Prelude.{◌≡◌};
ghost use Rattle.words.specs.Choice.{If◌then◌else◌};
ghost use Rattle.words.specs.Lists.{every};
ghost use Rattle.page.specs.Page.{Page};
ghost use Rattle.state.specs.State.{OnPage};
ghost use Rattle.steps.specs.Told.{told, tells};
ghost use Rattle.steps.specs.Light.{light_step};
ghost use Rattle.table.specs.Settings.{tab_control, is_visual, pen_after, pen_after_all, rendition, set_mode};
ghost use Rattle.table.specs.Settings.{is_area, pen_of_area, area_set, area_qualified};

use page::{Attribute, Mark};
use sequence::Reason;
use state::State;
use steps::{Light, Step};

// CTC: 0 sets a tab stop, 2 clears it, 5 clears all.
// (Here and below a match is on numbers that the host sends, as the definitions: an enum would be one more table.)
pub fn tab_control(state: State, letter: u8, what: usize) -> Step
    requires { OnPage state }
    ensures { (page : Page) →
        told result page ≡ tells (tab_control letter what (record { state = state; page = page })) }
{
    match what {
        0 => steps::quiet(state.set_stop()),
        2 => steps::quiet(state.clear_stop()),
        5 => steps::quiet(state.clear_stops()),
        _ => steps::refuse(state, Reason::WrongArguments, letter),
    }
}

// What one value of SGR does to the pen, if SGR lists it.
fn pen_after(value: u16, pen: Mark) -> Option<Mark>
    ensures { result ≡ (If is_visual value then Some (pen_after value pen) else None) }
{
    match value {
        0 => Some(state::pen_plain(pen)),
        1 => Some(page::with_attribute(pen, Attribute::Bold)),
        4 => Some(page::with_attribute(pen, Attribute::Underlined)),
        5 => Some(page::with_attribute(pen, Attribute::Blinking)),
        7 => Some(page::with_attribute(pen, Attribute::Reversed)),
        8 => Some(page::with_attribute(pen, Attribute::Concealed)),
        _ => None,
    }
}

// The pen after all of them, in order, if SGR lists them all.
fn pen_after_all(values: &[u16], pen: Mark) -> Option<Mark>
    ensures { result ≡ (If every is_visual values.now then Some (pen_after_all values.now pen) else None) }
{
    let mut here = pen;
    for value in values {
        here = pen_after(*value, here)?;
    }
    Some(here)
}

// SGR: one value that it doesn't list, and none acts.
pub fn rendition(state: State, letter: u8, values: &[u16]) -> Light
    ensures { (page : Page) →
        light_step result (record { state = state; page = page })
        ≡ rendition letter values.now (record { state = state; page = page }) }
{
    match pen_after_all(values, state.modes.pen) {
        Some(pen) => steps::sets(state.with_pen(pen)),
        None => Light::Refused(Reason::WrongArguments, letter),
    }
}

// Whether a pen takes a value of DAQ.
fn is_area(pen: Mark, value: usize) -> bool
    ensures { result ≡ is_area pen value }
{
    matches!(value, 0 | 1 | 3 | 4)
        || (value == 20 && !page::has_attribute(pen, Attribute::Protected))
}

// The pen that one of them leaves. (A pen, not an `Option`: `set_area` promises `area_set` of any value.)
fn pen_of_area(value: usize, pen: Mark) -> Mark
    ensures { result ≡ pen_of_area value pen }
{
    let open = state::pen_unprotected(pen);
    match value {
        0 => open,
        1 => page::with_attribute(open, Attribute::Protected),
        3 => page::with_attribute(open, Attribute::Numeric),
        4 => page::with_attribute(open, Attribute::Alphabetic),
        _ => page::with_attribute(pen, Attribute::Required),
    }
}

// ESC V and ESC W, and DAQ with a value that the pen takes.
pub fn set_area(state: State, value: usize) -> Light
    ensures { (page : Page) →
        light_step result (record { state = state; page = page })
        ≡ area_set value (record { state = state; page = page }) }
{
    steps::sets(state.with_pen(pen_of_area(value, state.modes.pen)))
}

// DAQ: what is written from here on is unprotected, protected, numeric or alphabetic; 20, required.
pub fn qualify_area(state: State, letter: u8, value: usize) -> Light
    ensures { (page : Page) →
        light_step result (record { state = state; page = page })
        ≡ area_qualified letter value (record { state = state; page = page }) }
{
    if is_area(state.modes.pen, value) {
        return set_area(state, value);
    }
    Light::Refused(Reason::WrongArguments, letter)
}

// SM and RM: mode 6.
pub fn set_mode(state: State, letter: u8, on: bool, values: &[u16]) -> Light
    ensures { (page : Page) →
        light_step result (record { state = state; page = page })
        ≡ set_mode letter on values.now (record { state = state; page = page }) }
{
    if values.iter().all(|value| *value == 6) {
        return steps::sets(state.with_erasure(on));
    }
    Light::Refused(Reason::WrongArguments, letter)
}
