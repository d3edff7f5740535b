//! Decimal digits: whether they are a number without a leading zero, and which number they are.
ghost use Rattle.std.specs.Prelude.{◌≡◌, ◌≤◌, true, length, IsTrue};
ghost use Rattle.std.specs.Char.{is_ascii_digit};
ghost use Rattle.std.specs.List.{list_all};
ghost use Rattle.std.specs.Str.Parse.{digits_value};
ghost use Rattle.esm_record.specs.Usual.{IsWhole};

use esm_model::spelling::are_digits;

/// Whether these are the digits of a number below 10^19, without a leading zero.
pub fn is_whole(digits: &[u8]) -> bool
    ensures { IsTrue result → IsWhole digits.now }
{
    if digits.is_empty() || digits.len() > 19 {
        return false;
    }
    if digits[0] == b'0' && digits.len() > 1 {
        return false;
    }
    are_digits(digits)
}

/// The number that the decimal digits, at most 19, are.
pub fn number_of(digits: &[u8]) -> u64
    requires few { length digits.now ≤ 19 }
    requires digits { list_all is_ascii_digit digits.now ≡ true }
    ensures { result ≡ digits_value 10 digits.now }
{
    let mut number: u64 = 0;
    for digit in digits {
        number = number * 10 + (*digit - b'0') as u64;
    }
    number
}
