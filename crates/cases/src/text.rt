// The notation of the cases: how numbers, tables and lines are written.
ghost use Rattle.std.specs.Prelude.{◌≤◌, min, length};
ghost use Rattle.io.specs.Counts.{IsPrefixLen};

// The number that a character stands for: digits for 0 to 9, A for 32, a for 64, b for 65, x for 128, y for 129, others for their byte.
pub(crate) fn number_of(character: u8) -> u8 {
    match character {
        b'0'..=b'9' => character - b'0',
        b'A' => 32,
        b'a' => 64,
        b'b' => 65,
        b'x' => 128,
        b'y' => 129,
        _ => character,
    }
}

// How many bytes of the text there are up to the first such byte, itself included; all of them if there is none.
pub(crate) fn length_through(text: &[u8], byte: u8) -> usize
    ensures prefix_len { IsPrefixLen result text.now }
    ensures lower_bound { min 1 (length text.now) ≤ result }
{
    match text.iter().position(|other| *other == byte) {
        Some(i) => i + 1,
        None => text.len(),
    }
}

// Puts the numbers that a table line's characters stand for, without its first and its line feed, into the buffer as far as it goes,
// and answers how many there are.
pub(crate) fn read_numbers(line: &[u8], buffer: &mut [u8]) -> usize
    ensures { IsPrefixLen result buffer.new }
{
    let count = buffer.len().min(line.len().saturating_sub(2));
    for i in 0..count {
        buffer[i] = number_of(line[i + 1]);
    }
    count
}
