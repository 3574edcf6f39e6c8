// Host bytes read on to the first that brings something about: what each byte does is `advance` of the crate sequence,
// and this is it again and again (specs/Ahead.antt). A whole command takes a path of its own, in which no record is
// handed around.
#![tactic(auto)]

ghost use Rattle.std.specs.Prelude.{◌≡◌, true, ◌<◌, ◌+◌, ◌-◌, ◌*◌, eqb, length, get_or, drop, IfSome};
ghost use Rattle.words.specs.Choice.{◌and◌, ◌is◌to◌};
ghost use Rattle.sequence.specs.declared.HalfRead.{HalfRead};
ghost use Rattle.sequence.specs.Record.{argument_read, bracket_read, valid_half_read};
ghost use Rattle.reading.specs.Ahead.{is_nothing, read_from, reading_of, ReadWhole};

use sequence::{Advanced, Event, HalfRead};

// The last byte read: the record before it, the record and the event after it, and where it ends.
#[derive(Clone, Copy)]
pub struct Reading {
    pub before: HalfRead,
    pub after: HalfRead,
    pub event: Event,
    pub end: usize,
}

// A whole command: the record before its last byte, its event, and where it ends. After it nothing is half read.
#[derive(Clone, Copy)]
struct Whole {
    before: HalfRead,
    event: Event,
    end: usize,
}

// Nothing happens yet.
fn is_nothing(event: Event) -> bool
    ensures { result ≡ is_nothing event }
{
    matches!(event, Event::Nothing)
}

// Whether a byte is text, and not part of a sequence.
pub fn takes_text(half: HalfRead, byte: u8) -> bool
    ensures { result ≡ (eqb half.kind 0 and byte is 0x20 to 0x7E) }
{
    half.kind == sequence::NONE && sequence::is_text(byte) // else it belongs to a sequence
}

// Byte by byte. (Here, in read and in read_command `from` is asked to be in the slice: the caller goes on in the same.)
fn read_on(half: HalfRead, bytes: &[u8], from: usize) -> Reading
    requires half_value { valid_half_read half ≡ true }
    requires from_in_bounds { from < length bytes.now }
    ensures { result ≡ read_from half (drop from bytes.now) from }
{
    let last = bytes.len() - 1;
    let mut before = half;
    for at in from..last {
        let Advanced { half: after, event } = before.advance(bytes[at]);
        if !is_nothing(event) {
            return Reading {
                before,
                after,
                event,
                end: at + 1,
            };
        }
        before = after;
    }
    let Advanced { half: after, event } = before.advance(bytes[last]);
    Reading {
        before,
        after,
        event,
        end: last + 1,
    }
}

// An argument with a digit put at its end.
fn with_digit(argument: u16, digit: u8) -> u32
    requires { (digit is 0x30 to 0x39) ≡ true }
    ensures { result ≡ argument * 10 + (digit - 0x30) }
{
    u32::from(argument) * 10 + u32::from(digit - b'0')
}

// Arguments: digits and semicolons up to the final byte; anything else, or their end, is left to `read_on`.
fn read_arguments(bytes: &[u8], from: usize) -> Option<Whole>
    ensures { IfSome result (ReadWhole argument_read bytes.now from) }
{
    let mut arguments: [u16; 8] = [0; 8];
    let mut last: usize = 0;
    for at in from..bytes.len() {
        let byte = bytes[at];
        match byte {
            b'0'..=b'9' => {
                let value = with_digit(arguments[last], byte);
                if 9999 < value {
                    return None;
                }
                arguments[last] = value as u16;
            }
            b';' => {
                if 7 <= last {
                    return None;
                }
                last += 1;
            }
            0x40..=0x7E => {
                return Some(Whole {
                    before: HalfRead {
                        kind: sequence::AFTER_BRACKET,
                        arguments,
                        count: (last + 1) as u8,
                        spoilt: false,
                    },
                    event: Event::BracketCommand(byte),
                    end: at + 1,
                });
            }
            _ => return None,
        }
    }
    None
}

// After ESC [: arguments, or the final byte at once; anything else, as >, is left to `read_on`.
fn read_bracket(bytes: &[u8], from: usize) -> Option<Whole>
    ensures { IfSome result (ReadWhole bracket_read bytes.now from) }
{
    let byte = *bytes.get(from)?;
    match byte {
        b'0'..=b';' => read_arguments(bytes, from),
        0x40..=0x7E => Some(Whole {
            before: sequence::BRACKET_READ,
            event: Event::BracketCommand(byte),
            end: from + 1,
        }),
        _ => None,
    }
}

// From an ESC outside a sequence on, where its command is whole.
fn read_command(bytes: &[u8], from: usize) -> Option<Whole>
    requires from_in_bounds { from < length bytes.now }
    requires from_value { get_or bytes.now from 0 ≡ 0x1B }
    ensures { IfSome result (λ whole. (half : HalfRead) → half.kind ≡ 0 →
        reading_of whole ≡ read_from half (drop from bytes.now) from) }
{
    let next = from + 1;
    let byte = *bytes.get(next)?;
    match byte {
        b'[' => read_bracket(bytes, next + 1),
        0x30..=0x7E => Some(Whole {
            before: sequence::ESC_READ,
            event: Event::EscCommand(byte),
            end: next + 1,
        }),
        _ => None,
    }
}

// The bytes from one on.
pub fn read(half: HalfRead, bytes: &[u8], from: usize) -> Reading
    requires half_value { valid_half_read half ≡ true }
    requires from_in_bounds { from < length bytes.now }
    ensures { result ≡ read_from half (drop from bytes.now) from }
{
    if bytes[from] == 0x1B && half.kind == sequence::NONE {
        if let Some(whole) = read_command(bytes, from) {
            return Reading {
                before: whole.before,
                after: sequence::NOTHING_READ,
                event: whole.event,
                end: whole.end,
            };
        }
    }
    read_on(half, bytes, from)
}
