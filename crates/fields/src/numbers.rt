// The fields of a line: numbers and keys, read.
ghost use Rattle.std.specs.Prelude.{◌≡◌, ◌≤◌, length};
ghost use Rattle.answers.specs.Refusals.{optional};
ghost use Rattle.fields.specs.Numbers.{value_of, number_of, key_of};

// The number that digits of a base write. By hand, since std's `parse` and `from_str_radix` take a plus sign in front.
fn value(digits: &[u8], base: u32) -> Option<u64>
    requires base_bound { (2 ≤ base) × (base ≤ 16) }
    requires digits_bound { length digits.now ≤ 16 }
    ensures { optional result ≡ value_of base 0 digits.now }
{
    let mut value: u64 = 0;
    for byte in digits {
        let digit = char::from(*byte).to_digit(base)?;
        value = value * base as u64 + digit as u64;
    }
    Some(value)
}

// A number of 1 to 10 decimal digits, below 2^32.
pub fn number(field: &[u8]) -> Option<u32>
    ensures { optional result ≡ number_of field.now }
{
    if field.is_empty() || field.len() > 10 {
        return None;
    }
    u32::try_from(value(field, 10)?).ok()
}

// A key of 16 hexadecimal digits.
pub fn key(field: &[u8]) -> Option<u64>
    ensures { optional result ≡ key_of field.now }
{
    if field.len() != 16 {
        return None;
    }
    value(field, 16)
}
