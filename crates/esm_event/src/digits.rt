// Writing numbers as digits.
ghost use Rattle.std.specs.Prelude.{◌≡◌, ◌<◌, ◌≤◌, ◌++◌, false, OnOk};
ghost use Rattle.std.specs.Fmt.{digit_glyph};
ghost use Rattle.esm_model.specs.Numbers.{decimal, padded_decimal, padded_hexadecimal, last_digits};

use esm_model::OutOfMemory;
use itoa::Buffer;

/// The number of digits that are written in one step, at most.
const MAX_WIDTH: u32 = 20;

/// Appends the number's decimal digits. After an error a part of them may have been appended.
pub fn push_decimal(out: &mut Vec<u8>, number: u64) -> Result<(), OutOfMemory>
    ensures { OnOk result (out.new.items ≡ out.old.items ++ decimal number) }
{
    let mut buffer = Buffer::new();
    out.extend_from_slice(buffer.format(number).as_bytes())?;
    Ok(())
}

/// Appends the last `width` decimal digits of the number, with zeros before a shorter one. After an error a part of them may
/// have been appended.
pub fn push_padded(out: &mut Vec<u8>, width: u32, number: u64) -> Result<(), OutOfMemory>
    ensures { OnOk result (out.new.items ≡ out.old.items ++ padded_decimal width number) }
{
    push_digits(out, 10, width, number)
}

/// Appends the last `width` hexadecimal digits of the number, in lower case, with zeros before a shorter one. After an error
/// a part of them may have been appended.
pub fn push_hexadecimal(out: &mut Vec<u8>, width: u32, number: u64) -> Result<(), OutOfMemory>
    ensures { OnOk result (out.new.items ≡ out.old.items ++ padded_hexadecimal width number) }
{
    push_digits(out, 16, width, number)
}

fn push_digits(out: &mut Vec<u8>, base: u64, width: u32, number: u64) -> Result<(), OutOfMemory>
    requires low { 0 < base }
    requires high { base ≤ 16 }
    ensures { OnOk result (out.new.items ≡ out.old.items ++ last_digits base width number) }
{
    if width <= MAX_WIDTH {
        return push_few_digits(out, base, width, number);
    }
    push_digits(out, base, width - 1, number / base)?;
    out.push(digit(number % base))?;
    Ok(())
}

/// Writes the digits from the last one on, and appends them in one step.
fn push_few_digits(out: &mut Vec<u8>, base: u64, width: u32, number: u64) -> Result<(), OutOfMemory>
    requires low { 0 < base }
    requires high { base ≤ 16 }
    requires few { width ≤ MAX_WIDTH }
    ensures { OnOk result (out.new.items ≡ out.old.items ++ last_digits base width number) }
{
    let mut digits = [b'0'; MAX_WIDTH as usize];
    let first = MAX_WIDTH as usize - width as usize;
    let mut at = MAX_WIDTH as usize;
    let mut rest = number;
    while at > first {
        at -= 1;
        digits[at] = digit(rest % base);
        rest /= base;
    }
    out.extend_from_slice(&digits[first..])?;
    Ok(())
}

fn digit(value: u64) -> u8
    requires { value < 16 }
    ensures { result ≡ digit_glyph false value }
{
    if value < 10 {
        b'0' + value as u8
    } else {
        b'a' + (value as u8 - 10)
    }
}
