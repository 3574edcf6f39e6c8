// Document 02, M-100: the state as a record of bytes, written and read; see specs/Record.antt.
#![tactic(auto)]

mod numbers;

ghost use Rattle.std.specs.Prelude.{◌≡◌, ◌+◌, ◌%◌, ◌<◌, ◌≤◌, length, get_or};
ghost use Rattle.words.specs.Output.{Wrote};
ghost use Rattle.record.specs.Bytes.{flag_bytes, number_at, flag_at, read_each, same_bytes};
ghost use Rattle.record.specs.Record.{first_bytes, argument_bytes, stop_bytes, record_of, state_in, is_good};

pub use numbers::{put_numbers, read_numbers, says_numbers};
use sequence::HalfRead;
use state::{Cursor, Locks, Modes, Size, State};
use std::array;

// Where each part of the state stands in the record.
const ROWS: usize = 0;

const COLUMNS: usize = 2;

const ROW: usize = 4;

const COLUMN: usize = 6;

const PEN: usize = 8;

const ERASURE: usize = 10;

const FULL: usize = 11;

const MANUAL: usize = 12;

const SOFT: usize = 13;

const MESSAGE: usize = 14;

const BYTE: usize = 15;

const KIND: usize = 16;

const SPOILT: usize = 17;

const COUNT: usize = 18;

const ARGUMENTS: usize = 19;

const STOPS: usize = 35;

// As many bytes as a record has.
pub const LENGTH: usize = 195;

// As much of a number as two bytes say.
fn two_bytes(number: usize) -> u16
    ensures { result ≡ number % 65536 }
{
    let [low, high, ..] = number.to_le_bytes();
    u16::from_le_bytes([low, high])
}

// The bytes before the arguments and the tab stops.
fn put_first_bytes(bytes: &mut [u8], at: usize, state: State) -> usize
    requires { at + 19 ≤ length bytes.old }
    ensures { Wrote at (first_bytes state) bytes.old result bytes.new }
{
    let numbers = [
        two_bytes(state.size.rows),
        two_bytes(state.size.columns),
        two_bytes(state.cursor.row),
        two_bytes(state.cursor.column),
        state.modes.pen,
    ];
    let rest = [
        u8::from(state.modes.erasure),
        u8::from(state.modes.full),
        u8::from(state.locks.manual),
        u8::from(state.locks.soft),
        state.locks.message,
        state.locks.byte,
        state.half.kind,
        u8::from(state.half.spoilt),
        state.half.count,
    ];
    let next = numbers::put_numbers(bytes, at, &numbers);
    output::put_all(bytes, next, &rest)
}

fn put_arguments(bytes: &mut [u8], at: usize, arguments: [u16; 8]) -> usize
    requires { at + 16 ≤ length bytes.old }
    ensures { Wrote at (argument_bytes arguments) bytes.old result bytes.new }
{
    numbers::put_numbers(bytes, at, &arguments)
}

fn put_flag(bytes: &mut [u8], at: usize, flag: bool) -> usize
    requires { at < length bytes.old }
    ensures { Wrote at (flag_bytes flag) bytes.old result bytes.new }
{
    output::put_byte(bytes, at, u8::from(flag))
}

fn put_stops(bytes: &mut [u8], at: usize, stops: [bool; 160]) -> usize
    requires { at + 160 ≤ length bytes.old }
    ensures { Wrote at (stop_bytes stops) bytes.old result bytes.new }
{
    output::put_each(bytes, at, &stops, put_flag)
}

// The record of a state.
pub fn record_of(state: State) -> [u8; LENGTH]
    ensures { result ≡ record_of state }
{
    let mut bytes = [0; LENGTH];
    let next = put_first_bytes(&mut bytes, 0, state);
    let last = put_arguments(&mut bytes, next, state.half.arguments);
    put_stops(&mut bytes, last, state.stops);
    bytes
}

// A byte of the record; past the end, 0.
fn byte_at(bytes: &[u8], at: usize) -> u8
    ensures { result ≡ get_or bytes.now at 0 }
{
    bytes.get(at).copied().unwrap_or(0)
}

fn flag_at(bytes: &[u8], at: usize) -> bool
    ensures { result ≡ flag_at bytes.now at }
{
    byte_at(bytes, at) == 1
}

// The number that two bytes say.
fn number_at(bytes: &[u8], at: usize) -> u16
    requires { at < 195 }
    ensures { result ≡ number_at 2 bytes.now at }
{
    u16::from_le_bytes([byte_at(bytes, at), byte_at(bytes, at + 1)])
}

fn arguments_in(bytes: &[u8]) -> [u16; 8]
    ensures { result ≡ read_each (number_at 2 bytes.now) 2 19 8 }
{
    array::from_fn(|i| number_at(bytes, ARGUMENTS + 2 * i))
}

// The stops of a whole record. Here no byte is past the end, and the compiler takes many at a time.
fn stops_there(bytes: &[u8]) -> [bool; 160]
    requires { 195 ≤ length bytes.now }
    ensures { result ≡ read_each (flag_at bytes.now) 1 35 160 }
{
    array::from_fn(|i| bytes[STOPS + i] == 1)
}

fn stops_in(bytes: &[u8]) -> [bool; 160]
    ensures { result ≡ read_each (flag_at bytes.now) 1 35 160 }
{
    if LENGTH <= bytes.len() {
        return stops_there(bytes);
    }
    array::from_fn(|i| flag_at(bytes, STOPS + i))
}

// The state that bytes say, whatever they are.
pub fn state_in(bytes: &[u8]) -> State
    ensures { result ≡ state_in bytes.now }
{
    State {
        size: Size {
            rows: usize::from(number_at(bytes, ROWS)),
            columns: usize::from(number_at(bytes, COLUMNS)),
        },
        cursor: Cursor {
            row: usize::from(number_at(bytes, ROW)),
            column: usize::from(number_at(bytes, COLUMN)),
        },
        modes: Modes {
            pen: number_at(bytes, PEN),
            erasure: flag_at(bytes, ERASURE),
            full: flag_at(bytes, FULL),
        },
        locks: Locks {
            manual: flag_at(bytes, MANUAL),
            soft: flag_at(bytes, SOFT),
            message: byte_at(bytes, MESSAGE),
            byte: byte_at(bytes, BYTE),
        },
        stops: stops_in(bytes),
        half: HalfRead {
            kind: byte_at(bytes, KIND),
            arguments: arguments_in(bytes),
            count: byte_at(bytes, COUNT),
            spoilt: flag_at(bytes, SPOILT),
        },
    }
}

// Whether two slices hold the same bytes.
pub fn same_bytes(one: &[u8], other: &[u8]) -> bool
    ensures { result ≡ same_bytes one.now other.now }
{
    one == other
}

// Whether bytes are the record of a state. Never inlined: so the record takes no stack while `is_good` reads the state.
#[inline(never)]
fn is_record_of(bytes: &[u8], state: State) -> bool
    ensures { result ≡ same_bytes bytes.now (record_of state) }
{
    let again = record_of(state);
    same_bytes(bytes, &again)
}

// Whether bytes are the record of the state that they say: read, written again, compared.
pub fn is_good(bytes: &[u8]) -> bool
    ensures { result ≡ is_good bytes.now }
{
    is_record_of(bytes, state_in(bytes))
}
