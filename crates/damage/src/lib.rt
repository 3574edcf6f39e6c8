// The state's parts by number, so that a test can read and set any of them; see specs/Parts.antt.
#![tactic(auto)]

ghost use Rattle.std.specs.Prelude.{◌≡◌};
ghost use Rattle.damage.specs.Parts.{first_parts, part_of};
ghost use Rattle.damage.specs.Parts.{chosen, arguments_with, stops_with, with_part};

use sequence::HalfRead;
use state::{Cursor, Locks, Modes, Size, State};

// As many parts as a state has.
pub const PARTS: usize = 182;

// The parts before the arguments and the tab stops.
fn first_parts(state: State) -> [usize; 12]
    ensures { result ≡ first_parts state }
{
    [
        state.size.rows,
        state.size.columns,
        state.cursor.row,
        state.cursor.column,
        usize::from(state.modes.pen),
        usize::from(state.modes.erasure),
        usize::from(state.locks.manual),
        usize::from(state.locks.soft),
        usize::from(state.locks.message),
        usize::from(state.half.kind),
        usize::from(state.half.spoilt),
        usize::from(state.half.count),
    ]
}

// A part's value; past the last part, 0. A part is a number, as `part_of` of specs/Parts.antt and the frames of `calls`
// have it.
pub fn part_of(state: State, part: usize) -> usize
    ensures { result ≡ part_of state part }
{
    match part {
        ..12 => first_parts(state)[part],
        12..20 => usize::from(state.half.arguments[part - 12]),
        20..180 => usize::from(state.stops[part - 20]),
        180 => usize::from(state.locks.byte),
        181 => usize::from(state.modes.full),
        _ => 0,
    }
}

// What this part becomes where a part is set.
fn chosen<T: Copy>(this: usize, part: usize, value: T, other: T) -> T
    ensures { result ≡ chosen this part value other }
{
    if part == this { value } else { other }
}

fn arguments_with(mut arguments: [u16; 8], part: usize, value: u16) -> [u16; 8]
    ensures { result ≡ arguments_with arguments part value }
{
    if (12..=19).contains(&part) {
        arguments[part - 12] = value;
    }
    arguments
}

fn stops_with(mut stops: [bool; 160], part: usize, value: u16) -> [bool; 160]
    ensures { result ≡ stops_with stops part value }
{
    if (20..=179).contains(&part) {
        stops[part - 20] = 0 < value;
    }
    stops
}

// The state with one part set; past the last part, the state as it is.
pub fn with_part(state: State, part: usize, value: u16) -> State
    ensures { result ≡ with_part state part value }
{
    let [low, _] = value.to_le_bytes();
    let on = 0 < value;
    State {
        size: Size {
            rows: chosen(0, part, usize::from(value), state.size.rows),
            columns: chosen(1, part, usize::from(value), state.size.columns),
        },
        cursor: Cursor {
            row: chosen(2, part, usize::from(value), state.cursor.row),
            column: chosen(3, part, usize::from(value), state.cursor.column),
        },
        modes: Modes {
            pen: chosen(4, part, value, state.modes.pen),
            erasure: chosen(5, part, on, state.modes.erasure),
            full: chosen(181, part, on, state.modes.full),
        },
        locks: Locks {
            manual: chosen(6, part, on, state.locks.manual),
            soft: chosen(7, part, on, state.locks.soft),
            message: chosen(8, part, low, state.locks.message),
            byte: chosen(180, part, low, state.locks.byte),
        },
        stops: stops_with(state.stops, part, value),
        half: HalfRead {
            kind: chosen(9, part, low, state.half.kind),
            arguments: arguments_with(state.half.arguments, part, value),
            count: chosen(11, part, low, state.half.count),
            spoilt: chosen(10, part, on, state.half.spoilt),
        },
    }
}
