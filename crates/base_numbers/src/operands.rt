// Operators on operands that may have no value.
ghost use Rattle.std.specs.Prelude.{◌≡◌};
ghost use Rattle.meaning.specs.Values.{is_true, truth, monadic_of, operate, when_number, dyadic_of};

use crate::operators;
use meaning::Value;

// The value of a monadic operator on an operand.
// kept: a method with a closure in place of the two arms of each match would need a clause by the closure's `post`, and a proof at each call
pub fn monadic_of(op: u32, v: Value) -> Value
    ensures { result ≡ when_number v (monadic_of op) }
{
    match v {
        Value::Number(x) => operators::monadic(op, x),
        Value::Missing(k) => Value::Missing(k),
    }
}

// What AND or OR gives that its first operand decides.
pub fn decided(x: i32) -> Value
    ensures { result ≡ truth (is_true x) }
{
    operators::truth(operators::is_true(x))
}

// The value of a dyadic operator on a second operand, after a first that is a number and does not decide.
pub fn dyadic_after(op: u32, x: i32, w: Value) -> Value
    ensures { result ≡ when_number w (operate op x) }
{
    match w {
        Value::Number(y) => operators::dyadic(op, x, y),
        Value::Missing(k) => Value::Missing(k),
    }
}

// The value of a dyadic operator on two operands, the first of which may decide.
pub fn dyadic_of(op: u32, v: Value, w: Value) -> Value
    ensures { result ≡ dyadic_of op v w }
{
    match v {
        Value::Missing(k) => Value::Missing(k),
        Value::Number(x) => {
            if operators::decides(op, x) {
                return decided(x);
            }
            dyadic_after(op, x, w)
        }
    }
}
