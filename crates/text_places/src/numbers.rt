// The value of digits.
ghost use Rattle.std.specs.Prelude.{◌≡◌, ◌≤◌, length};
ghost use Rattle.std.specs.Str.Parse.{AllDigits, digits_value};
ghost use Rattle.text_places.specs.declared.numbers.TheConstants.{FITTING_DIGITS};
ghost use Rattle.text_places.specs.Limits.{LimitsAre};

/// All numbers of at most so many digits are below 2^32.
pub const FITTING_DIGITS: usize = 9;

/// The law of limits: what number each is. The function does nothing: its contract is the law.
pub fn limits_are()
    ensures { LimitsAre }
{}

/// The value of at most 9 digits.
pub fn number(digits: &[u8]) -> u32
    requires digits { AllDigits 10 digits.now }
    requires few { length digits.now ≤ FITTING_DIGITS }
    ensures { result ≡ digits_value 10 digits.now }
{
    let mut value = 0;
    for digit in digits {
        value = 10 * value + u32::from(*digit - b'0');
    }
    value
}
