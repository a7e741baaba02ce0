// A number's digits, counted and written into an array of bytes.
ghost use Rattle.std.specs.Prelude.{◌≡◌, ◌∷◌, ◌++◌, ◌-◌, ◌≤◌, length, take, drop};
ghost use Rattle.meaning.specs.Texts.{hyphen};
ghost use Rattle.meaning.specs.Numerals as numerals;
ghost use Rattle.base_numbers.specs.Printing.{text_of};

use crate::Text;

// How many digits a number has.
// kept: the loop takes the number apart, digit by digit
fn digit_count(n: u32) -> usize
    ensures { result ≡ length (numerals.decimal n) }
{
    let mut count: usize = 1;
    let mut rest = n;
    while 10 <= rest {
        rest /= 10;
        count += 1;
    }
    count
}

// The bytes with a number's digits written into them, the last one just before `end`.
// kept: the loop takes the number apart; its place goes down with each digit
fn put_digits(bytes: [u8; 11], end: usize, n: u32) -> [u8; 11]
    requires { (length (numerals.decimal n) ≤ end) × (end ≤ 11) }
    ensures { result ≡ take (end - length (numerals.decimal n)) bytes ++ (numerals.decimal n ++ drop end bytes) }
{
    let mut out = bytes;
    let mut at = end;
    let mut rest = n;
    while 10 <= rest {
        at -= 1;
        out[at] = b'0' + (rest % 10) as u8;
        rest /= 10;
    }
    at -= 1;
    out[at] = b'0' + rest as u8;
    out
}

// A number without a sign, printed.
pub fn decimal(n: u32) -> Text
    ensures { result ≡ text_of (numerals.decimal n) }
{
    let count = digit_count(n);
    let bytes = put_digits([0; 11], count, n);
    Text {
        bytes,
        length: count,
    }
}

// A minus sign and a number's digits.
// kept beside `decimal`: with the sign as a parameter, one function would need a contract that says both
fn with_minus(n: u32) -> Text
    ensures { result ≡ text_of (hyphen ∷ numerals.decimal n) }
{
    let end = 1 + digit_count(n);
    let mut start = [0u8; 11];
    start[0] = b'-';
    let bytes = put_digits(start, end, n);
    Text { bytes, length: end }
}

// A number, printed.
pub fn printed(z: i32) -> Text
    ensures { result ≡ text_of (numerals.printed z) }
{
    if z < 0 {
        return with_minus(z.unsigned_abs());
    }
    decimal(z.unsigned_abs())
}
