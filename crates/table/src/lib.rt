// Document 01, "Commands": the table by final byte; in modules of their own, the commands that change the state alone.
// What each function gives is defined in specs/.
#![tactic(auto)]

ghost use Rattle.std.specs.Prelude.{◌≡◌, ◌-◌, ◌≤◌, get_or};
ghost use Rattle.table.specs.Table.{allowed, value_of};

pub mod moves;
pub mod private_forms;
pub mod settings;

// A digit for each byte, 64 to a line: final bytes are 40 to 7E (`letter` in the code, as `final` is a word of the
// language). How many arguments a command may have at most; 0 is for one that isn't listed.
const MOST: [u8; 256] = *b"\
    0000000000000000000000000000000000000000000000000000000000000000\
    0111111121110000000000010010000000001020800088110000000000000000\
    0000000000000000000000000000000000000000000000000000000000000000\
    0000000000000000000000000000000000000000000000000000000000000000";

// What an argument of 0 stands for.
//  @ABCDEFGHIJKLMNOPQRSTUVWXYZ[\]^_`abcdefghijklmnopqrstuvwxyz{|}~
const ZERO_IS: [u8; 256] = *b"\
    0000000000000000000000000000000000000000000000000000000000000000\
    0111111111000000000000000010000000001010000000000000000000000000\
    0000000000000000000000000000000000000000000000000000000000000000\
    0000000000000000000000000000000000000000000000000000000000000000";

// The digit that a table has for a byte.
fn digit(table: &[u8; 256], letter: u8) -> u8
    requires { 0x30 ≤ get_or table.now letter 0 }
    ensures { result ≡ get_or table.now letter 0 - 0x30 }
{
    table[usize::from(letter)] - b'0'
}

// How many arguments a command may have at most: document 01's table, consulted here alone.
// (A number, not an `Option`: `allowed` gives 0 for one that isn't listed. `zero_is` differs in the table it names.)
pub fn most_arguments(letter: u8) -> u8
    ensures { result ≡ (allowed letter).most }
{
    digit(&MOST, letter)
}

// What an argument of 0 stands for.
fn zero_is(letter: u8) -> u8
    ensures { result ≡ (allowed letter).zero_is }
{
    digit(&ZERO_IS, letter)
}

// An argument as it was read, counted from 0; one that isn't there is 0.
fn argument(arguments: &[u16], i: usize) -> u16
    ensures { result ≡ get_or arguments.now i 0 }
{
    arguments.get(i).copied().unwrap_or(0)
}

// The value of an argument, counted from 0.
pub fn value(letter: u8, arguments: &[u16], i: usize) -> usize
    ensures { result ≡ value_of letter arguments.now i }
{
    match argument(arguments, i) {
        0 => usize::from(zero_is(letter)),
        given => usize::from(given),
    }
}
