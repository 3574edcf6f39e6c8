// What the code tells of a step (specs/Told.antt).
#![tactic(auto)]

ghost use Rattle.std.specs.Prelude.{◌≡◌, List, ℕ, length};
ghost use Rattle.page.specs.Page.{Page};
ghost use Rattle.steps.specs.Steps.{goes_to, refusing, stores};
ghost use Rattle.steps.specs.Told.{told, tells};

use sequence::Reason;
use state::{Cursor, Modes, State};

// A step that was done. One that may send has a `Result`, whose error `NoRoom` says that nothing happened.
// (Its flags tell two more things of every step: no other field goes with them.)
#[derive(Clone, Copy)]
pub struct Step {
    pub state: State,
    pub stored: usize,
    pub sent: usize,
    pub refused: bool,
    pub protection: bool,
}

// A light step, which touches neither page nor output nor tab stops: what it changes of the state (specs/Light.antt).
#[derive(Clone, Copy)]
pub enum Light {
    Cursor(Cursor),
    Modes(Modes),
    // A command is refused, for a reason, at a byte.
    Refused(Reason, u8),
}

// The cursor goes where it stands in a state. (`sets` is of this shape: another field, and the variant that has it.)
pub fn moves_to(state: State) -> Light
    ensures { result ≡ Light.Cursor state.cursor }
{
    Light::Cursor(state.cursor)
}

// Pen and mode become those of a state.
pub fn sets(state: State) -> Light
    ensures { result ≡ Light.Modes state.modes }
{
    Light::Modes(state.modes)
}

// The state changes, and nothing is stored, sent or refused.
pub fn quiet(state: State) -> Step
    ensures { (page : Page) → told result page ≡ tells (goes_to state (record { state = state; page = page })) }
{
    Step {
        state,
        stored: 0,
        sent: 0,
        refused: false,
        protection: false,
    }
}

// A command is refused, for a reason, at a byte: every refusal comes through here.
pub fn refuse(state: State, reason: Reason, byte: u8) -> Step
    ensures { (page : Page) →
        told result page ≡ tells (refusing reason byte (record { state = state; page = page })) }
{
    Step {
        refused: true,
        ..quiet(state.refuse(reason, byte))
    }
}

// Cells are stored, and the state changes; `protection` says whether cells may have been protected or unprotected.
pub fn stored(state: State, count: usize, protection: bool) -> Step
    ensures { (cells : List ℕ) (page : Page) → length cells ≡ count →
        told result page ≡ tells (stores cells protection state page) }
{
    Step {
        stored: count,
        protection,
        ..quiet(state)
    }
}
