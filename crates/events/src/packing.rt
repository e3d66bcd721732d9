// An event's answer as one number.
ghost use Rattle.std.specs.Prelude.{◌≡◌, ◌<◌};
ghost use Rattle.events.specs.Answers.{paper};
ghost use Rattle.events.specs.Packing.{four_bytes, packed, unpacked};

use crate::Answer;

// Four bytes as one number, the first byte on top.
fn four_bytes(number: u8, a: u8, b: u8, c: u8) -> u32
    ensures { (result ≡ four_bytes number a b c) × (a < 256) × (b < 256) × (c < 256) }
{
    u32::from_be_bytes([number, a, b, c])
}

// The answer's number on top (1 granted, 2 waits, 3 done, 4 refused), then its values. It can be taken apart again.
pub fn pack(answer: Answer) -> u32
    ensures { (result ≡ packed answer) × (unpacked result ≡ paper answer) }
{
    match answer {
        Answer::Granted => four_bytes(1, 0, 0, 0),
        Answer::Waits {
            holder,
            object,
            reason,
        } => four_bytes(2, holder, object, reason),
        Answer::Done(woken) => four_bytes(3, woken, 0, 0),
        Answer::Refused(number) => four_bytes(4, number, 0, 0),
    }
}
