// The values of operators.
ghost use Rattle.std.specs.Prelude.{◌≡◌};
ghost use Rattle.meaning.specs.Values.{is_true, truth, decides, monadic_of, operate};

use crate::wide;
use meaning::Value;

// Whether a number counts as true.
pub fn is_true(x: i32) -> bool
    ensures { result ≡ is_true x }
{
    x != 0
}

// Whether AND or OR is settled by its first operand.
pub fn decides(op: u32, x: i32) -> bool
    ensures { result ≡ decides op x }
{
    match op {
        14 => x == 0,
        15 => x != 0,
        _ => false,
    }
}

// 1 or 0 for true or false.
pub fn truth(t: bool) -> Value
    ensures { result ≡ truth t }
{
    Value::Number(i32::from(t))
}

// The value of a monadic operator, by its number.
pub fn monadic(op: u32, x: i32) -> Value
    ensures { result ≡ monadic_of op x }
{
    match op {
        0 => wide::fit(wide::opposite(x)),
        1 => truth(x == 0),
        _ => Value::Missing(0),
    }
}

// The value of a dyadic operator, by its number.
// kept: an operator's number is what a row holds, and `Values.operators` is listed by it
pub fn dyadic(op: u32, x: i32, y: i32) -> Value
    ensures { result ≡ operate op x y }
{
    match op {
        0 => wide::fit(wide::sum(x, y)),
        1 => wide::fit(wide::difference(x, y)),
        2 => wide::fit(wide::product(x, y)),
        3 => wide::quotient(x, y),
        4 => wide::remainder(x, y),
        5 => wide::wrap(wide::sum(x, y)),
        6 => wide::wrap(wide::difference(x, y)),
        7 => wide::wrap(wide::product(x, y)),
        8 => truth(x == y),
        9 => truth(x != y),
        10 => truth(x < y),
        11 => truth(x <= y),
        12 => truth(y < x),
        13 => truth(y <= x),
        14 => truth(is_true(x) && is_true(y)),
        15 => truth(is_true(x) || is_true(y)),
        _ => Value::Missing(0),
    }
}
