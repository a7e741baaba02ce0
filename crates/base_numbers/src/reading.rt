// A field's number: its sign and its digits.
ghost use Rattle.std.specs.Prelude.{◌≡◌, ◌≤◌};
ghost use Rattle.meaning.specs.Numerals as numerals;
ghost use Rattle.base_numbers.specs.Reading.{option_of, whole_of};
ghost use Rattle.base_numbers.specs.Reading as reading;

// The number that digits make, if it is at most 2 ^ 31. A number above stays there, so the rest is not looked at.
fn digits_value(digits: &[u8]) -> Option<u64>
    ensures { result ≡ whole_of (numerals.digits_value 0 digits.now) }
{
    let mut value: u64 = 0;
    for &b in digits {
        if !b.is_ascii_digit() {
            return None;
        }
        value = value * 10 + u64::from(b - b'0');
        if 2147483648 < value {
            return None;
        }
    }
    Some(value)
}

// The same with at least one digit and no leading zero.
fn natural(digits: &[u8]) -> Option<u64>
    ensures { result ≡ whole_of (numerals.natural digits.now) }
{
    if digits.is_empty() || digits[0] == b'0' && 1 < digits.len() {
        return None;
    }
    digits_value(digits)
}

// A number without a sign, if 32 bits hold it.
fn unsigned(n: u64) -> Option<i32>
    ensures { result ≡ reading.unsigned n }
{
    i32::try_from(n).ok()
}

// A number with a minus sign, if it is not 0 and 32 bits hold it.
fn negative(n: u64) -> Option<i32>
    requires { n ≤ 2147483648 }
    ensures { result ≡ reading.negative n }
{
    if n == 0 {
        None
    } else {
        i32::try_from(-(n as i64)).ok()
    }
}

// The number that a field holds, if it has the form.
pub fn read_number(field: &[u8]) -> Option<i32>
    ensures { result ≡ option_of (numerals.number field.now) }
{
    match field.strip_prefix(b"-") {
        Some(digits) => negative(natural(digits)?),
        None => unsigned(natural(field)?),
    }
}
