ghost use Rattle.std.specs.Prelude.{◌≡◌, ◌≤◌, IsTrue, pos};
ghost use Rattle.std.specs.Char.{is_ascii_digit};
ghost use Rattle.std.specs.List.{list_all};
ghost use Rattle.std.specs.Str.Parse.{digits_value};

/// The value of decimal digits.
pub fn value_of(digits: &[u8]) -> i64
    requires numeral { IsTrue (list_all is_ascii_digit digits.now) }
    requires fits { digits_value 10 digits.now ≤ 9223372036854775807 }
    ensures { result ≡ pos (digits_value 10 digits.now) }
{
    let mut value: u64 = 0;
    for digit in digits {
        value = value * 10 + u64::from(*digit - b'0');
    }
    value as i64
}
