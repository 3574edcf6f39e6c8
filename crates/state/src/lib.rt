// The state by value. Methods take it and hand it back with one part replaced; see specs/.
#![tactic(auto)]

mod moves;
mod pen;
mod tabs;
mod tests;

ghost use Rattle.std.specs.Prelude.{◌≡◌};
ghost use Rattle.places.specs.Places.{place_of, cell_at};
ghost use Rattle.state.specs.State.{OnPage, with_locks, with_half, fresh_state, zero_state};
ghost use Rattle.state.specs.State.{message_of, refused, input_disabled, input_enabled, unlocked};

use page::Mark;
pub use pen::{pen_plain, pen_unprotected};
use places::Place;
use sequence::{HalfRead, Reason};

#[derive(Clone, Copy)]
pub struct Size {
    pub rows: usize,
    pub columns: usize,
}

#[derive(Clone, Copy)]
pub struct Cursor {
    pub row: usize,
    pub column: usize,
}

// The pen, and the two modes: flags, as each is set or reset by itself.
#[derive(Clone, Copy)]
pub struct Modes {
    pub pen: Mark,
    // set: erasing takes protected cells too
    pub erasure: bool,
    // the Unprotected/Modified mode is reset: the Send key sends all fields, not those that changed
    pub full: bool,
}

// Manual input disabled, the soft lock (flags, as each is set by itself), and the message: 0 none, 1 to 4 why a command
// was refused (`message_of`).
#[derive(Clone, Copy)]
pub struct Locks {
    pub manual: bool,
    pub soft: bool,
    // a number, since C keeps any byte there, and calls answer 2 to one out of range (`valid_message`, `state_in`)
    pub message: u8,
    // at which it was refused; 0 without a message
    pub byte: u8,
}

#[derive(Clone, Copy)]
pub struct State {
    pub size: Size,
    pub cursor: Cursor,
    pub modes: Modes,
    pub locks: Locks,
    // column 1 first
    pub stops: [bool; 160],
    pub half: HalfRead,
}

const NO_SIZE: Size = Size {
    rows: 0,
    columns: 0,
};

const NOWHERE: Cursor = Cursor { row: 0, column: 0 };

const HOME: Cursor = Cursor { row: 1, column: 1 };

const FRESH_MODES: Modes = Modes {
    pen: 0,
    erasure: false,
    full: false,
};

const UNLOCKED: Locks = Locks {
    manual: false,
    soft: false,
    message: 0,
    byte: 0,
};

// The message that tells a reason. (No `From`: neither type is of this crate.)
fn message_of(reason: Reason) -> u8
    ensures { result ≡ message_of reason }
{
    match reason {
        Reason::UnknownCommand => 1,
        Reason::WrongArguments => 2,
        Reason::BrokenSequence => 3,
        Reason::HighByte => 4,
    }
}

impl State {
    // A fresh page's state.
    pub fn fresh(size: Size) -> Self
        ensures { result ≡ fresh_state size }
    {
        State {
            size,
            cursor: HOME,
            modes: FRESH_MODES,
            locks: UNLOCKED,
            stops: [false; 160],
            half: sequence::NOTHING_READ,
        }
    }

    // What a refused start hands back.
    pub fn zero() -> Self
        ensures { result ≡ zero_state }
    {
        State {
            size: NO_SIZE,
            cursor: NOWHERE,
            modes: FRESH_MODES,
            locks: UNLOCKED,
            stops: [false; 160],
            half: sequence::NOTHING_READ,
        }
    }

    // The cursor's cell.
    // (`OnPage` is asked, not in the type: a State is what calls take from outside, damaged ones too, answered with 2.)
    pub fn place(self) -> Place
        requires { OnPage self }
        ensures { result ≡ place_of self.size.columns
            (cell_at self.size.columns self.cursor.row self.cursor.column) }
    {
        Place::at(self.cursor.row, self.cursor.column, self.size.columns)
    }

    // Other locks, another message and byte.
    // (`with_half` and `with_modes` are of this shape: each is the definition of its name, for one field.)
    fn with_locks(self, locks: Locks) -> Self
        ensures { result ≡ with_locks self locks }
    {
        State { locks, ..self }
    }

    // A refused command: the soft lock, the reason's message and the byte, in place of those of one before.
    pub fn refuse(self, reason: Reason, byte: u8) -> Self
        ensures { result ≡ refused reason byte self }
    {
        self.with_locks(Locks {
            soft: true,
            message: message_of(reason),
            byte,
            ..self.locks
        })
    }

    // ESC ` locks the keyboard.
    pub fn disable_input(self) -> Self
        ensures { result ≡ input_disabled self }
    {
        self.with_locks(Locks {
            manual: true,
            ..self.locks
        })
    }

    // ESC b takes every lock off, and message and byte.
    pub fn enable_input(self) -> Self
        ensures { result ≡ input_enabled self }
    {
        self.with_locks(UNLOCKED)
    }

    // Key 268 takes the soft lock off, and message and byte.
    pub fn unlock(self) -> Self
        ensures { result ≡ unlocked self }
    {
        self.with_locks(Locks {
            soft: false,
            message: 0,
            byte: 0,
            ..self.locks
        })
    }

    // What is half read after a byte.
    pub fn with_half(self, half: HalfRead) -> Self
        ensures { result ≡ with_half self half }
    {
        State { half, ..self }
    }
}
