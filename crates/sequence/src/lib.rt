// Document 01, "Reading host bytes", and document 02, M-106: the half-read sequence, advanced by one byte.
// Which record and which event a byte gives is defined in specs/Reading.antt.
#![tactic(auto)]

ghost use Rattle.std.specs.Prelude.{◌≡◌, true, ◌≤◌};
ghost use Rattle.words.specs.Choice.{◌is◌to◌};
ghost use Rattle.sequence.specs.Record.{largest_argument, arguments_fit, valid_half_read};
ghost use Rattle.sequence.specs.Record.{with_digit, with_next_argument};
ghost use Rattle.sequence.specs.Reading.{reads_on, ends, refuses, is_control, is_cancel, outside_sequence};
ghost use Rattle.sequence.specs.Reading.{after_esc, after_intermediate, after_bracket, right_after_bracket};
ghost use Rattle.sequence.specs.Reading.{after_private_mark, sequence_read_on, inside_sequence, advance_of};

// What is half read: numbers and no enum, since C's record keeps any byte there (`HalfRead.kind`).
pub const NONE: u8 = 0;

pub const AFTER_ESC: u8 = 1;

pub const AFTER_INTERMEDIATE: u8 = 2;

// ESC [ and more; ESC [ with nothing after it yet; ESC [ and > right after it.
pub const AFTER_BRACKET: u8 = 3;

pub const BRACKET_ALONE: u8 = 4;

pub const AFTER_PRIVATE_MARK: u8 = 5;

// A sequence of which some bytes have been read. The last of `count` arguments is still being read.
#[derive(Clone, Copy)]
pub struct HalfRead {
    // A number: C's record keeps any byte here, and the entries answer 2 to a bad one (`state_in`, `valid_half_read`).
    pub kind: u8,
    pub arguments: [u16; 8],
    pub count: u8,
    // A flag of its own, as C's record keeps it; `valid_half_read` says with which kind it goes.
    pub spoilt: bool,
}

// Why a command is refused: what M-102 of document 02 tells apart.
#[derive(Clone, Copy)]
pub enum Reason {
    UnknownCommand,
    // An argument not allowed, or too many for the command.
    WrongArguments,
    // A sequence spoilt, or broken off by a control byte.
    BrokenSequence,
    // A byte of 80 or above.
    HighByte,
}

// What a byte brings about.
#[derive(Clone, Copy)]
pub enum Event {
    // No Option around the others: this too has a step of its own (`event_step` of commands/specs/Host.antt).
    Nothing,
    Text(u8),
    Control(u8),
    // ESC and the command's byte.
    EscCommand(u8),
    // ESC [ and the command's final byte; its arguments are those of the record before this byte.
    BracketCommand(u8),
    // ESC [ > and the command's final byte; its argument is the record's too.
    PrivateCommand(u8),
    // Why, and the byte at which it was refused.
    Refused(Reason, u8),
}

#[derive(Clone, Copy)]
pub struct Advanced {
    pub half: HalfRead,
    pub event: Event,
}

pub const NOTHING_READ: HalfRead = HalfRead {
    kind: NONE,
    arguments: [0; 8],
    count: 0,
    spoilt: false,
};

pub const ESC_READ: HalfRead = HalfRead {
    kind: AFTER_ESC,
    ..NOTHING_READ
};

const INTERMEDIATE_READ: HalfRead = HalfRead {
    kind: AFTER_INTERMEDIATE,
    ..NOTHING_READ
};

const ARGUMENT_READ: HalfRead = HalfRead {
    kind: AFTER_BRACKET,
    count: 1,
    ..NOTHING_READ
};

pub const BRACKET_READ: HalfRead = HalfRead {
    kind: BRACKET_ALONE,
    ..ARGUMENT_READ
};

const PRIVATE_MARK_READ: HalfRead = HalfRead {
    kind: AFTER_PRIVATE_MARK,
    ..ARGUMENT_READ
};

const SPOILT: HalfRead = HalfRead {
    spoilt: true,
    ..ARGUMENT_READ
};

// Whether n is low to high.
pub fn is_between(n: u8, low: u8, high: u8) -> bool
    ensures { result ≡ (n is low to high) }
{
    low <= n && n <= high
}

// What is text outside a sequence, and belongs to one inside it.
pub fn is_text(byte: u8) -> bool
    ensures { result ≡ (byte is 0x20 to 0x7E) }
{
    is_between(byte, 0x20, 0x7E)
}

// The control bytes that are executed.
fn is_control(byte: u8) -> bool
    ensures { result ≡ is_control byte }
{
    matches!(byte, 0x08 | 0x0D | 0x0A | 0x09)
}

// 18 and 1A, at which a sequence is forgotten. (One line like commands::is_light_letter, of other bytes.)
fn is_cancel(byte: u8) -> bool
    ensures { result ≡ is_cancel byte }
{
    matches!(byte, 0x18 | 0x1A)
}

// The sequence is read on, and nothing happens yet.
fn reads_on(half: HalfRead) -> Advanced
    ensures { result ≡ reads_on half }
{
    Advanced {
        half,
        event: Event::Nothing,
    }
}

// The sequence is over, with an event.
fn ends(event: Event) -> Advanced
    ensures { result ≡ ends event }
{
    Advanced {
        half: NOTHING_READ,
        event,
    }
}

// A refused command, for a reason, at a byte.
fn refused(reason: Reason, byte: u8) -> Advanced
    ensures { result ≡ refuses reason byte }
{
    ends(Event::Refused(reason, byte))
}

// Any byte where nothing is half read. A match, as in after_bracket and inside_sequence: it is document 01's table.
fn outside_sequence(byte: u8) -> Advanced
    ensures { result ≡ outside_sequence byte }
{
    match byte {
        _ if is_text(byte) => ends(Event::Text(byte)),
        _ if is_control(byte) => ends(Event::Control(byte)),
        0x1B => reads_on(ESC_READ),
        0x80.. => refused(Reason::HighByte, byte),
        _ => ends(Event::Nothing),
    }
}

// 20 to 7E after ESC.
fn after_esc(byte: u8) -> Advanced
    ensures { result ≡ after_esc byte }
{
    match byte {
        ..=0x2F => reads_on(INTERMEDIATE_READ),
        b'[' => reads_on(BRACKET_READ),
        _ => ends(Event::EscCommand(byte)),
    }
}

// 20 to 7E after ESC and an intermediate.
fn after_intermediate(byte: u8) -> Advanced
    ensures { result ≡ after_intermediate byte }
{
    match byte {
        ..=0x2F => reads_on(INTERMEDIATE_READ),
        _ => refused(Reason::UnknownCommand, byte),
    }
}

// 20 to 7E right after ESC [.
fn right_after_bracket(byte: u8) -> Advanced
    ensures { result ≡ right_after_bracket byte }
{
    match byte {
        b'>' => reads_on(PRIVATE_MARK_READ),
        _ => ARGUMENT_READ.after_bracket(byte),
    }
}

// The largest that argument `i`, counted from 0, may be where `reached` of them are reached.
fn largest_argument(i: usize, reached: usize) -> u16
    ensures { result ≡ largest_argument i reached }
{
    if i < reached { 9999 } else { 0 }
}

// No argument is larger than it may be.
fn arguments_fit(arguments: [u16; 8], reached: usize) -> bool
    ensures { result ≡ arguments_fit reached 0 arguments }
{
    arguments
        .iter()
        .enumerate()
        .all(|(i, argument)| *argument <= largest_argument(i, reached))
}

// What the methods ask of a record stays in clauses: C lends damaged ones too, and `is_valid` tells which they are.
impl HalfRead {
    // Document 01's number 2 asks this of the half-read record.
    pub fn is_valid(self) -> bool
        ensures { result ≡ valid_half_read self }
    {
        if self.spoilt {
            return self.kind == AFTER_BRACKET
                && self.count == 1
                && arguments_fit(self.arguments, 0);
        }
        match self.kind {
            AFTER_BRACKET => {
                is_between(self.count, 1, 8)
                    && arguments_fit(self.arguments, usize::from(self.count))
            }
            BRACKET_ALONE => self.count == 1 && arguments_fit(self.arguments, 0),
            AFTER_PRIVATE_MARK => self.count == 1 && arguments_fit(self.arguments, 1),
            NONE | AFTER_ESC | AFTER_INTERMEDIATE => {
                self.count == 0 && arguments_fit(self.arguments, 0)
            }
            _ => false,
        }
    }

    // A digit is put at the end of the last argument.
    fn with_digit(self, digit: u8) -> Self
        requires { (1 ≤ self.count) × (self.count ≤ 8) × (digit ≤ 9) }
        ensures { result ≡ with_digit self digit }
    {
        if self.spoilt { // nothing adds to it
            return self;
        }
        let last = usize::from(self.count - 1);
        let value = u32::from(self.arguments[last]) * 10 + u32::from(digit);
        if 9999 < value {
            return SPOILT;
        }
        let mut half = self; // one element is replaced, for which struct update has no form
        half.arguments[last] = value as u16;
        half
    }

    // A semicolon starts the next argument.
    fn with_next_argument(self) -> Self
        ensures { result ≡ with_next_argument self }
    {
        if self.spoilt {
            return self;
        }
        if 8 <= self.count {
            return SPOILT;
        }
        HalfRead {
            count: self.count + 1,
            ..self
        }
    }

    // 20 to 7E after ESC [ and more.
    fn after_bracket(self, byte: u8) -> Advanced
        requires { (1 ≤ self.count) × (self.count ≤ 8) }
        ensures { result ≡ after_bracket self byte }
    {
        match byte {
            b'0'..=b'9' => reads_on(self.with_digit(byte - b'0')),
            b';' => reads_on(self.with_next_argument()),
            ..0x40 => reads_on(SPOILT),
            _ if self.spoilt => refused(Reason::BrokenSequence, byte), // whatever the final byte is
            _ => ends(Event::BracketCommand(byte)),
        }
    }

    // 20 to 7E after ESC [ >.
    fn after_private_mark(self, byte: u8) -> Advanced
        requires { (1 ≤ self.count) × (self.count ≤ 8) }
        ensures { result ≡ after_private_mark self byte }
    {
        match byte {
            b'0'..=b'9' => reads_on(self.with_digit(byte - b'0')),
            ..0x40 => reads_on(SPOILT), // a semicolon too: there is one argument
            _ => ends(Event::PrivateCommand(byte)),
        }
    }

    // 20 to 7E inside a sequence.
    fn sequence_read_on(self, byte: u8) -> Advanced
        requires self_value { valid_half_read self ≡ true }
        requires fact { self.kind ≡ 0 → ⊥ }
        ensures { result ≡ sequence_read_on self byte }
    {
        match self.kind {
            AFTER_ESC => after_esc(byte),
            AFTER_INTERMEDIATE => after_intermediate(byte),
            BRACKET_ALONE => right_after_bracket(byte),
            AFTER_PRIVATE_MARK => self.after_private_mark(byte),
            _ => self.after_bracket(byte),
        }
    }

    // Any byte inside a sequence.
    fn inside_sequence(self, byte: u8) -> Advanced
        requires self_value { valid_half_read self ≡ true }
        requires fact { self.kind ≡ 0 → ⊥ }
        ensures { result ≡ inside_sequence self byte }
    {
        match byte {
            _ if is_cancel(byte) => ends(Event::Nothing),
            0x1B => reads_on(ESC_READ), // and not refused
            _ if is_text(byte) => self.sequence_read_on(byte),
            0x80.. => refused(Reason::HighByte, byte),
            _ => refused(Reason::BrokenSequence, byte), // and not executed
        }
    }

    // The record and the event after one host byte.
    pub fn advance(self, byte: u8) -> Advanced
        requires { valid_half_read self ≡ true }
        ensures { result ≡ advance_of self byte }
    {
        match self.kind {
            NONE => outside_sequence(byte),
            _ => self.inside_sequence(byte),
        }
    }
}
