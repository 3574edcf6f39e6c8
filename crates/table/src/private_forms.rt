// Document 02, M-106: the private forms, ESC [ > argument and final byte.
ghost use Rattle.std.specs.Prelude.{◌≡◌};
ghost use Rattle.page.specs.Page.{Page};
ghost use Rattle.steps.specs.Light.{light_step};
ghost use Rattle.table.specs.PrivateForms.{private_step};

use sequence::Reason;
use state::State;
use steps::Light;

// >6: what the Send key sends.
pub fn private_command(state: State, letter: u8, argument: u16) -> Light
    ensures { (page : Page) →
        light_step result (record { state = state; page = page })
        ≡ private_step letter argument (record { state = state; page = page }) }
{
    match (argument, letter) {
        (6, b'h') => steps::sets(state.with_full(false)),
        (6, b'l') => steps::sets(state.with_full(true)),
        _ => Light::Refused(Reason::BrokenSequence, letter),
    }
}
