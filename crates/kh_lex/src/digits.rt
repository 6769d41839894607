//! The numbers that digits write.

ghost use Rattle.std.specs.Prelude.{◌≡◌, ◌+◌, ◌*◌, ◌^◌, ◌<◌, ◌≤◌, IsTrue, min};
ghost use Rattle.std.specs.Char.{digit_value, is_ascii_digit};
ghost use Rattle.std.specs.List.{AllPass};
ghost use Rattle.std.specs.Str.Parse.{digits_value};
ghost use Rattle.kh_lex.specs.declared.limits.TheConstants.{NUMBER_DIGITS};

/// The number that digits write, and one above a limit for any number that is above it.
pub fn size_of(digits: &[u8], most: u32) -> u32
    requires digits { AllPass is_ascii_digit digits.now }
    requires most { most < 10 ^ NUMBER_DIGITS }
    ensures { result ≡ min (digits_value 10 digits.now) (most + 1) }
{
    let mut size = 0;
    for digit in digits {
        size = capped_with_digit(size, *digit, most);
    }
    size
}

/// A number with one more digit behind it, and one above a limit for any number that is above it.
fn capped_with_digit(size: u32, digit: u8, most: u32) -> u32
    requires most { most < 10 ^ NUMBER_DIGITS }
    requires size { size ≤ most + 1 }
    requires digit { IsTrue (is_ascii_digit digit) }
    ensures { result ≡ min (size * 10 + digit_value digit) (most + 1) }
{
    let next = size * 10 + u32::from(digit - b'0');
    next.min(most + 1)
}
