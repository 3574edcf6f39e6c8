// The pen and the modes; see specs/Pen.antt.
ghost use Rattle.std.specs.Prelude.{◌≡◌};
ghost use Rattle.state.specs.Pen.{pen_unprotected, pen_plain, with_pen, with_erasure, with_full};
ghost use Rattle.state.specs.State.{with_modes};

use crate::{Modes, State};
use page::{Attribute, Mark};

// The visual marks, bits 2 to 6.
const VISUAL: Mark = 0x7C;

// Numeric, alphabetic and required, bits 7 to 9.
const KIND: Mark = 0x380;

// ESC W and o 0: what is written is unprotected, of no kind.
pub fn pen_unprotected(pen: Mark) -> Mark
    ensures { result ≡ pen_unprotected pen }
{
    page::without_attribute(pen, Attribute::Protected) & !KIND
}

// m 0: no visual marks; the kind stays.
pub fn pen_plain(pen: Mark) -> Mark
    ensures { result ≡ pen_plain pen }
{
    pen & !VISUAL
}

impl State {
    // Another pen, or modes.
    fn with_modes(self, modes: Modes) -> Self
        ensures { result ≡ with_modes self modes }
    {
        State { modes, ..self }
    }

    // Another pen.
    // (`with_erasure` and `with_full` are of this shape: each is the definition of its name, for one field.)
    pub fn with_pen(self, pen: Mark) -> Self
        ensures { result ≡ with_pen self pen }
    {
        self.with_modes(Modes { pen, ..self.modes })
    }

    // Mode 6, erasure, set or reset.
    pub fn with_erasure(self, erasure: bool) -> Self
        ensures { result ≡ with_erasure self erasure }
    {
        self.with_modes(Modes {
            erasure,
            ..self.modes
        })
    }

    // Mode >6, reset (`full`) or set.
    pub fn with_full(self, full: bool) -> Self
        ensures { result ≡ with_full self full }
    {
        self.with_modes(Modes { full, ..self.modes })
    }
}
