// Sums, products and quotients of two 32-bit numbers, computed in 64 bits, and brought back to 32.
ghost use Rattle.std.specs.Prelude.{◌≡◌, ◌<◌, neg_ℤ, ◌+ℤ◌, ◌-ℤ◌, ◌*ℤ◌};
ghost use Rattle.std.specs.Int.Signed.{mag};
ghost use Rattle.meaning.specs.declared.Value.TheVariants.{Number};
ghost use Rattle.meaning.specs.Values as values;

use meaning::Value;

// Each of these four fits in 64 bits.
pub fn sum(x: i32, y: i32) -> i64
    ensures { result ≡ x +ℤ y }
{
    i64::from(x) + i64::from(y)
}

pub fn difference(x: i32, y: i32) -> i64
    ensures { result ≡ x -ℤ y }
{
    i64::from(x) - i64::from(y)
}

pub fn product(x: i32, y: i32) -> i64
    ensures { result ≡ x *ℤ y }
{
    i64::from(x) * i64::from(y)
}

pub fn opposite(x: i32) -> i64
    ensures { result ≡ neg_ℤ x }
{
    -i64::from(x)
}

// z where 32 bits hold it, else reason 3.
pub fn fit(z: i64) -> Value
    ensures { result ≡ values.fitted z }
{
    match i32::try_from(z) {
        Ok(x) => Value::Number(x),
        Err(_) => Value::Missing(3),
    }
}

// The number of 32 bits that differs from r by 0 or 2 ^ 32.
// kept: the library's `wrapping_` methods are told by their bits; that those are `Values.wrapped` would be proved by what stands here
fn turn(r: i64) -> i32
    requires { mag r < 4294967296 }
    ensures { result ≡ values.signed32 r }
{
    if r < -2147483648 {
        return (r + 4294967296) as i32;
    }
    if 2147483647 < r {
        return (r - 4294967296) as i32;
    }
    r as i32
}

// The number of 32 bits that differs from z by a multiple of 2 ^ 32.
pub fn wrap(z: i64) -> Value
    ensures { result ≡ Number (values.wrapped z) }
{
    Value::Number(turn(z % 4294967296))
}

// Rounded towards zero; reason 4 where the divisor is zero, before reason 3.
pub fn quotient(x: i32, y: i32) -> Value
    ensures { result ≡ values.quotient x y }
{
    if y == 0 {
        return Value::Missing(4); // before reason 3
    }
    fit(i64::from(x) / i64::from(y))
}

// With the sign of the first operand; reason 4 where the divisor is zero.
pub fn remainder(x: i32, y: i32) -> Value
    ensures { result ≡ values.remainder x y }
{
    if y == 0 {
        return Value::Missing(4);
    }
    fit(i64::from(x) % i64::from(y))
}
