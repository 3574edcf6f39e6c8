// The half-read record, lent: document 01's form for "a small record, advanced byte by byte".
#![tactic(auto)]

ghost use Rattle.std.specs.Prelude.{◌≡◌, true};
ghost use Rattle.sequence.specs.Record.{valid_half_read};
ghost use Rattle.sequence.specs.Reading.{advance_of};

use sequence::{Event, HalfRead};

// The lent record is advanced by one byte, as `HalfRead::advance` does by value, and the byte's event handed back.
pub fn advance_lent(half: &mut HalfRead, byte: u8) -> Event
    requires { valid_half_read half.old ≡ true }
    ensures { (half.new ≡ (advance_of half.old byte).half) ×
        (result ≡ (advance_of half.old byte).event) }
{
    let advanced = HalfRead::advance(*half, byte);
    *half = advanced.half;
    advanced.event
}
