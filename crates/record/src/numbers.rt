// Numbers of two bytes each, one after another, the low byte first; see specs/Bytes.antt.
ghost use mathlib.Core.List.{flat_map};
ghost use Rattle.std.specs.Prelude.{◌≡◌, ◌+◌, ◌*◌, ◌≤◌, length};
ghost use Rattle.words.specs.Output.{Wrote};
ghost use Rattle.record.specs.Bytes.{number_bytes, number_at, read_each, same_bytes};

fn put_number(bytes: &mut [u8], at: usize, number: u16) -> usize
    requires { at + 2 ≤ length bytes.old }
    ensures { Wrote at (number_bytes 2 number) bytes.old result bytes.new }
{
    output::put_all(bytes, at, &number.to_le_bytes())
}

// Numbers one after another.
pub fn put_numbers(bytes: &mut [u8], at: usize, numbers: &[u16]) -> usize
    requires { at + length numbers.now * 2 ≤ length bytes.old }
    ensures { Wrote at (flat_map (number_bytes 2) numbers.now)
        bytes.old result bytes.new }
{
    output::put_each(bytes, at, numbers, put_number)
}

// A number whose bytes are there.
fn number_there(bytes: &[u8], at: usize) -> u16
    requires { at + 2 ≤ length bytes.now }
    ensures { result ≡ number_at 2 bytes.now at }
{
    u16::from_le_bytes([bytes[at], bytes[at + 1]])
}

// As many numbers as are asked for, from the first byte on.
pub fn read_numbers(bytes: &[u8], numbers: &mut [u16])
    requires { length numbers.old * 2 ≤ length bytes.now }
    ensures { numbers.new
        ≡ read_each (number_at 2 bytes.now) 2 0 (length numbers.old) }
{
    for (i, number) in numbers.iter_mut().enumerate() {
        *number = number_there(bytes, i * 2);
    }
}

// Whether the bytes say these numbers. The loop asks of every one, whatever was found before: then the compiler takes
// many at a time.
pub fn says_numbers(bytes: &[u8], numbers: &[u16]) -> bool
    requires { length numbers.now * 2 ≤ length bytes.now }
    ensures { result ≡ same_bytes
        (read_each (number_at 2 bytes.now) 2 0 (length numbers.now)) numbers.now }
{
    let mut all = true;
    for (i, number) in numbers.iter().enumerate() {
        all &= number_there(bytes, i * 2) == *number;
    }
    all
}
