// Bytes and decimal numbers, written into a lent output from a place on; each function gives the place after.
// Output and place stay two parameters, here, in numerals, in drawing and in record: a struct that held the output by
// reference would be no plainer, since its contracts would speak of what that borrow ends as.
#![tactic(auto)]

ghost use mathlib.Core.List.{flat_map};
ghost use Rattle.std.specs.Prelude.{◌≡◌, List, [], ◌∷◌, ℕ, ◌+◌, ◌*◌, ◌/◌, ◌%◌, ◌<◌, ◌≤◌, length};
ghost use Rattle.std.specs.Borrow.{MutBor};
ghost use Rattle.words.specs.Output.{Wrote};
ghost use Rattle.output.specs.Decimal.{decimal, place_bytes};
ghost use Rattle.output.specs.Piece.{Piece};

// What is to be written doesn't fit into the room that is left, and nothing was written.
#[derive(Clone, Copy, Debug, PartialEq, Eq)]
pub struct NoRoom;

// How often a unit goes into a number, and what is left.
#[derive(Clone, Copy)]
pub struct CountedOff {
    pub times: usize,
    pub left: usize,
}

// By subtraction: there is no divide instruction on a small panel. In nine turns: of a loop that goes on while the unit
// can be taken off the compiler makes a division.
pub fn count_off(number: usize, unit: usize) -> CountedOff
    requires { number < 10 * unit }
    ensures { (result.times ≡ number / unit) × (result.left ≡ number % unit) }
{
    let mut times = 0;
    let mut left = number;
    for _ in 0..9usize {
        if unit <= left {
            left -= unit;
            times += 1;
        }
    }
    CountedOff { times, left }
}

// How many digits a number below 1,000 has.
pub fn decimal_length(number: usize) -> usize
    ensures { result ≡ length (decimal number) }
{
    if number < 10 {
        return 1;
    }
    if number < 100 {
        return 2;
    }
    3
}

// One byte.
pub fn put_byte(out: &mut [u8], at: usize, byte: u8) -> usize
    requires { at < length out.old }
    ensures { Wrote at (byte ∷ []) out.old result out.new }
{
    out[at] = byte;
    at + 1
}

// The bytes as they are. Byte by byte, and not by copy_from_slice: that calls memmove, deep in what C has little stack
// for.
pub fn put_all(out: &mut [u8], at: usize, bytes: &[u8]) -> usize
    requires { at + length bytes.now ≤ length out.old }
    ensures { Wrote at bytes.now out.old result out.new }
{
    put_each(out, at, bytes, put_byte)
}

// Each item in its turn, as `put` writes one.
pub fn put_each<T: Copy, F: Fn(&mut [u8], usize, T) -> usize>(
    out: &mut [u8],
    at: usize,
    items: &[T],
    put: F,
) -> usize
    ghost piece: { Piece T }
    requires room { at + length items.now * piece.width ≤ length out.old }
    requires takes { (part : MutBor (List ℕ)) (here : ℕ) (item : T) →
        here + piece.width ≤ length part.now → F.pre put part here item }
    requires writes { (part left : MutBor (List ℕ)) (here next : ℕ) (item : T) →
        F.post put part here item next left → Wrote here (piece.bytes item) part.now next left.now }
    ensures { Wrote at (flat_map piece.bytes items.now) out.old result out.new }
{
    let mut next = at;
    for item in items {
        next = put(out, next, *item);
    }
    next
}

// One digit.
pub fn put_digit(out: &mut [u8], at: usize, digit: usize) -> usize
    requires { (digit ≤ 9) × (at < length out.old) }
    ensures { Wrote at ((0x30 + digit) ∷ []) out.old result out.new }
{
    put_byte(out, at, (0x30 + digit) as u8)
}

// Two digits, a leading zero among them.
pub fn put_two_digits(out: &mut [u8], at: usize, number: usize) -> usize
    requires { (number < 100) × (at + 2 ≤ length out.old) }
    ensures { Wrote at ((0x30 + number / 10) ∷ (0x30 + number % 10) ∷ [])
        out.old result out.new }
{
    let tens = count_off(number, 10);
    let next = put_digit(out, at, tens.times);
    put_digit(out, next, tens.left)
}

// A number below 1,000 in decimal.
pub fn put_decimal(out: &mut [u8], at: usize, number: usize) -> usize
    requires { (number < 1000) × (at + length (decimal number) ≤ length out.old) }
    ensures { Wrote at (decimal number) out.old result out.new }
{
    if number < 10 { // no leading zero
        return put_digit(out, at, number);
    }
    if number < 100 {
        return put_two_digits(out, at, number);
    }
    let hundreds = count_off(number, 100);
    let next = put_digit(out, at, hundreds.times);
    put_two_digits(out, next, hundreds.left)
}

// How many bytes a place has: ESC [ ; and the final byte are four of them.
pub fn place_length(row: usize, column: usize) -> usize
    ensures value { result ≡ length (place_bytes row column 0) }
    ensures upper_bound { result ≤ 10 }
{
    let rows = decimal_length(row);
    let columns = decimal_length(column);
    4 + rows + columns
}

// ESC [ row ; column and a final byte.
pub fn put_place(out: &mut [u8], at: usize, row: usize, column: usize, letter: u8) -> usize
    requires { (row < 1000) × (column < 1000) × (at + length (place_bytes row column letter) ≤ length out.old) }
    ensures { Wrote at (place_bytes row column letter) out.old result out.new }
{
    let bracket = put_byte(out, at, 0x1B);
    let digits = put_byte(out, bracket, b'[');
    let semicolon = put_decimal(out, digits, row);
    let more_digits = put_byte(out, semicolon, b';');
    let end = put_decimal(out, more_digits, column);
    put_byte(out, end, letter)
}
