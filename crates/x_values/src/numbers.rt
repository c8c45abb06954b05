ghost use Rattle.std.specs.Prelude.{◌≡◌};
ghost use Rattle.std.specs.List.{list_all};
ghost use Rattle.std.specs.Char.{is_ascii_digit};
ghost use Rattle.x_values.specs.Words.{decimal_of, number_of, plain_number_of, plain_number_within};

fn are_digits(digits: &[u8]) -> bool
    ensures { result ≡ list_all is_ascii_digit digits.now }
{
    digits.iter().all(|byte| byte.is_ascii_digit())
}

/// The number that decimal digits write, if it fits.
fn decimal(digits: &[u8]) -> Option<u64>
    ensures { result ≡ decimal_of digits.now }
{
    if !are_digits(digits) {
        return None;
    }
    let Ok(text) = str::from_utf8(digits) else {
        return None;
    };
    text.parse::<u64>().ok()
}

/// A number of 1 to 20 decimal digits, with leading zeros too.
pub fn read_decimal_number(digits: &[u8]) -> Option<u64>
    ensures { result ≡ number_of digits.now }
{
    if digits.len() > 20 {
        return None;
    }
    decimal(digits)
}

/// A number in decimal digits without a leading zero; `0` alone is zero.
pub fn read_plain_number(digits: &[u8]) -> Option<u64>
    ensures { result ≡ plain_number_of digits.now }
{
    if digits.len() != 1 && digits.first() == Some(&b'0') {
        return None;
    }
    decimal(digits)
}

/// A number from `low` to `high` in decimal digits without a leading zero.
pub fn read_plain_number_within(low: u64, high: u64, digits: &[u8]) -> Option<u64>
    ensures { result ≡ plain_number_within low high digits.now }
{
    let number = read_plain_number(digits)?;
    if low <= number && number <= high {
        Some(number)
    } else {
        None
    }
}
