// Numbers as text: bytes in hexadecimal, read and written, and numbers of five digits.
// For the programs that a person runs.
// Every function that writes does so into a lent text from a place on, and gives the place after.
#![tactic(auto)]

ghost use Rattle.std.specs.Prelude.{◌≡◌, true, ◌+◌, ◌*◌, ◌<◌, ◌≤◌, length, take};
ghost use Rattle.words.specs.Lists.{every};
ghost use Rattle.words.specs.Output.{Wrote};
ghost use Rattle.numerals.specs.Hexadecimal.{is_digit, digit_value, digit_of, is_hexadecimal};
ghost use Rattle.numerals.specs.Hexadecimal.{hex_byte, hex_of, hex_pair, hex_pairs, pairs_of};
ghost use Rattle.numerals.specs.Text.{five_digits};

#[tactic(auto, using(crate::proofs::Digits::digit_tests))]
fn is_digit(byte: u8) -> bool
    ensures { result ≡ is_digit byte }
{
    matches!(byte, b'0'..=b'9' | b'A'..=b'F')
}

// Two ranges, each with its own offset: here and in digit_of an `if` is the plain form.
fn value_of(digit: u8) -> u8
    requires { is_digit digit ≡ true }
    ensures { (result ≡ digit_value digit) × (result ≤ 15) }
{
    if digit <= b'9' {
        return digit - b'0';
    }
    // ten before A
    digit - 0x37
}

fn digit_of(value: u8) -> u8
    requires { value < 16 }
    ensures { result ≡ digit_of value }
{
    if value < 10 {
        return b'0' + value;
    }
    // ten before A
    0x37 + value
}

// Whether a text is whole bytes: two digits each.
pub fn is_hexadecimal(text: &[u8]) -> bool
    ensures { result ≡ is_hexadecimal text.now }
{
    text.len() % 2 == 0 && text.iter().all(|digit| is_digit(*digit))
}

// The bytes that digits say, left in their place: a byte never stands past the digits still to be read. The text may be
// longer than its digits, and the rest stays, as the contract has it: so their count stands beside it.
pub fn decode(text: &mut [u8], digits: usize) -> usize
    requires digits_in_bounds { digits ≤ length text.old }
    requires text_value { every is_digit (take digits text.old) ≡ true }
    ensures { Wrote 0 (pairs_of (take digits text.old)) text.old result text.new }
{
    for i in 0..digits / 2 {
        let high = value_of(text[2 * i]);
        let low = value_of(text[2 * i + 1]);
        text[i] = high * 16 + low;
    }
    digits / 2
}

// A byte as its two digits, the high one first.
pub fn put_hex_byte(text: &mut [u8], at: usize, byte: u8) -> usize
    requires { at + 2 ≤ length text.old }
    ensures { Wrote at (hex_byte byte) text.old result text.new }
{
    let high = digit_of(byte / 16);
    let low = digit_of(byte % 16);
    let next = output::put_byte(text, at, high);
    output::put_byte(text, next, low)
}

// Two digits for each byte. This one, put_hex_pairs and record::put_numbers are each one call, and name what writes an
// item.
pub fn put_hex(text: &mut [u8], at: usize, bytes: &[u8]) -> usize
    requires { at + 2 * length bytes.now ≤ length text.old }
    ensures { Wrote at (hex_of bytes.now) text.old result text.new }
{
    output::put_each(text, at, bytes, put_hex_byte)
}

// A number of two bytes as four digits.
pub fn put_hex_pair(text: &mut [u8], at: usize, number: u16) -> usize
    requires { at + 4 ≤ length text.old }
    ensures { Wrote at (hex_pair number) text.old result text.new }
{
    put_hex(text, at, &number.to_be_bytes())
}

// Four digits for each number.
pub fn put_hex_pairs(text: &mut [u8], at: usize, numbers: &[u16]) -> usize
    requires { at + 4 * length numbers.now ≤ length text.old }
    ensures { Wrote at (hex_pairs numbers.now) text.old result text.new }
{
    output::put_each(text, at, numbers, put_hex_pair)
}

// With leading zeros: three digits, each counted off what the one before left, then two.
pub fn put_five(text: &mut [u8], at: usize, number: usize) -> usize
    requires { (number < 100000) × (at + 5 ≤ length text.old) }
    ensures { Wrote at (five_digits number) text.old result text.new }
{
    let first = output::count_off(number, 10000);
    let second = output::count_off(first.left, 1000);
    let third = output::count_off(second.left, 100);
    let mut next = output::put_digit(text, at, first.times);
    next = output::put_digit(text, next, second.times);
    next = output::put_digit(text, next, third.times);
    output::put_two_digits(text, next, third.left)
}
