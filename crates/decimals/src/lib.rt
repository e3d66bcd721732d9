// Bytes and decimal numbers, laid into a buffer one behind the other: each function answers the index behind what it laid.
#![tactic(auto, using(crate::proofs::Laying::laying))]

ghost use Rattle.std.specs.Prelude.{◌≡◌, [], ◌∷◌, ◌+◌, ◌≤◌, ◌<◌, length};
ghost use Rattle.decimals.specs.Decimal.{decimal, three_digits};
ghost use Rattle.decimals.specs.Fields.{space, right_aligned, digit_or_space};
ghost use Rattle.decimals.specs.Laid.{Laid};

// A byte laid at the index.
pub fn lay_byte(buf: &mut [u8], at: usize, byte: u8) -> usize
    requires { at < length buf.old }
    ensures { Laid buf.old buf.new at result 1 (byte ∷ []) }
{
    buf[at] = byte;
    at + 1
}

// A text laid from the index on.
pub fn lay_text(buf: &mut [u8], at: usize, text: &[u8]) -> usize
    requires { at + length text.now ≤ length buf.old }
    ensures { Laid buf.old buf.new at result (length text.now) text.now }
{
    let end = at + text.len();
    buf[at..end].copy_from_slice(text);
    end
}

// Three bytes laid from the index on.
pub fn lay_three(buf: &mut [u8], at: usize, a: u8, b: u8, c: u8) -> usize
    requires { at + 3 ≤ length buf.old }
    ensures { Laid buf.old buf.new at result 3 (a ∷ b ∷ c ∷ []) }
{
    let second = lay_byte(buf, at, a);
    let third = lay_byte(buf, second, b);
    lay_byte(buf, third, c)
}

// A space and a letter.
pub fn lay_letter(buf: &mut [u8], at: usize, letter: u8) -> usize
    requires { at + 2 ≤ length buf.old }
    ensures { Laid buf.old buf.new at result 2 (space ∷ letter ∷ []) }
{
    let end = lay_byte(buf, at, b' ');
    lay_byte(buf, end, letter)
}

// A number's decimal digits laid from the index on, without leading zeros.
pub fn lay_number(buf: &mut [u8], at: usize, number: u64) -> usize
    requires { at + 20 ≤ length buf.old }
    ensures { Laid buf.old buf.new at result 20 (decimal number) }
{
    lay_digits(buf, at, number)
}

// A byte's decimal digits laid from the index on, without leading zeros.
pub fn lay_byte_number(buf: &mut [u8], at: usize, number: u8) -> usize
    requires { at + 3 ≤ length buf.old }
    ensures { Laid buf.old buf.new at result 3 (decimal number) }
{
    lay_below_thousand(buf, at, number as u16)
}

// A byte's decimal digits laid from the index on, right-aligned in three bytes.
pub fn lay_aligned(buf: &mut [u8], at: usize, number: u8) -> usize
    requires { at + 3 ≤ length buf.old }
    ensures { Laid buf.old buf.new at result 3 (right_aligned 3 (decimal number)) }
{
    let hundreds = digit_or_space(number / 100);
    let tens = digit_or_space(number / 10);
    lay_three(buf, at, hundreds, tens, b'0' + number % 10)
}

// The last digit of the number, and a space of 0: a digit that may be a leading zero.
fn digit_or_space(number: u8) -> u8
    ensures { result ≡ digit_or_space number }
{
    if number == 0 {
        b' '
    } else {
        b'0' + number % 10
    }
}

// A number's digits, where just these have room.
fn lay_digits(buf: &mut [u8], at: usize, number: u64) -> usize
    requires { at + length (decimal number) ≤ length buf.old }
    ensures { Laid buf.old buf.new at result (length (decimal number)) (decimal number) }
{
    if number < 1000 {
        return lay_below_thousand(buf, at, number as u16);
    }
    let end = lay_digits(buf, at, number / 1000);
    lay_three_digits(buf, end, (number % 1000) as u16)
}

// The same of a number below a thousand: one to three digits.
fn lay_below_thousand(buf: &mut [u8], at: usize, number: u16) -> usize
    requires { (number < 1000) × (at + length (decimal number) ≤ length buf.old) }
    ensures { Laid buf.old buf.new at result (length (decimal number)) (decimal number) }
{
    if number < 10 {
        return lay_byte(buf, at, b'0' + number as u8);
    }
    if number < 100 {
        let end = lay_byte(buf, at, b'0' + (number / 10) as u8);
        return lay_byte(buf, end, b'0' + (number % 10) as u8);
    }
    lay_three_digits(buf, at, number)
}

// A number below a thousand in three digits, with its leading zeros.
fn lay_three_digits(buf: &mut [u8], at: usize, number: u16) -> usize
    requires { (number < 1000) × (at + 3 ≤ length buf.old) }
    ensures { Laid buf.old buf.new at result 3 (three_digits number) }
{
    lay_three(
        buf,
        at,
        b'0' + (number / 100) as u8,
        b'0' + (number / 10 % 10) as u8,
        b'0' + (number % 10) as u8,
    )
}
