// What a subscript counts for: constants, made only of literals and operators, with their values, and the numbers put into bit sets.
#![tactic(auto)]

ghost use Rattle.std.specs.Prelude.{◌≡◌, ◌<◌};
ghost use Rattle.meaning.specs.Tree.{content_at};
ghost use Rattle.meaning.specs.Usage.{counts_by_value, counts_for};
ghost use Rattle.base_sets.specs.Sets.{with_all, in_sort};
ghost use Rattle.check_subscripts.specs.Constants.{constant_of, monadic_constant, dyadic_constant};
ghost use Rattle.check_subscripts.specs.Counts.{without_place};

use base_layout::nodes::{field, natural, operand};
use base_sets::{put, put_range};
use meaning::{Index, Value};

// A monadic operator on an operand. GIVEN, operator 2, takes an element, so it varies.
fn monadic(op: u32, c: Option<Value>) -> Option<Value>
    ensures { result ≡ monadic_constant op c }
{
    let v = c?;
    if op == 2 {
        return None;
    }
    Some(base_numbers::monadic_of(op, v))
}

// A dyadic operator on two operands: both must be constants, also where the first decides.
fn dyadic(op: u32, c: Option<Value>, d: Option<Value>) -> Option<Value>
    ensures { result ≡ dyadic_constant op c d }
{
    let v = c?;
    let w = d?;
    Some(base_numbers::dyadic_of(op, v, w))
}

// The expression of row e as a constant, from its operands' rows: its value or the reason that it has none; None if it is not made only of literals and operators.
fn constant_at(rows: &[i32], e: usize) -> Option<Value>
    ensures { result ≡ constant_of (content_at rows.now e).expr }
{
    if rows.len() / 4 <= e {
        return None;
    }
    match natural(rows, e, 0) {
        10 => Some(Value::Number(field(rows, e, 1))),
        12 => {
            let c = constant_at(rows, operand(rows, e, 2));
            monadic(natural(rows, e, 1), c)
        }
        13 => {
            let c = constant_at(rows, operand(rows, e, 2));
            let d = constant_at(rows, operand(rows, e, 3));
            dyadic(natural(rows, e, 1), c, d)
        }
        _ => None,
    }
}

// How many numbers of an array count where a constant subscript means none of them: every number if it has no value, none if it is outside.
fn without_place(size: u32, v: Value) -> u32
    ensures { result ≡ without_place size v }
{
    match v {
        Value::Missing(_k) => size,
        Value::Number(_x) => 0,
    }
}

// What a constant subscript of this value counts for in an array of `size` from `first` on: the number that it means, if it means one.
fn count_value(v: Value, sort: usize, first: u32, size: u32, sets: &mut [u64])
    requires { sort < 4 }
    ensures { sets.new ≡ with_all sets.old (in_sort sort (counts_by_value first size v)) }
{
    match base_numbers::subscript(first, size, v) {
        Index::At(i) => {
            put(sets, sort, i);
        }
        Index::Fails(_k) => {
            put_range(sets, sort, first, without_place(size, v));
        }
    }
}

// What the subscript of row e counts for in an array of `size` from `first` on: a constant by its value, any other every number.
pub fn count(rows: &[i32], e: usize, sort: usize, first: u32, size: u32, sets: &mut [u64])
    requires { sort < 4 }
    ensures { sets.new ≡ with_all sets.old (in_sort sort (counts_for first size (content_at rows.now e).expr)) }
{
    match constant_at(rows, e) {
        Some(v) => {
            count_value(v, sort, first, size, sets);
        }
        None => {
            put_range(sets, sort, first, size);
        }
    }
}
