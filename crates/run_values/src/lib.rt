// The cell store, and the values of expressions and subscripts from a prepared table.
#![tactic(auto)]

ghost use Rattle.std.specs.Prelude.{◌≡◌, List, ◌≤◌, ℤ};
ghost use Rattle.meaning.specs.Tree.{content_at, action_of};
ghost use Rattle.meaning.specs.Values.{in_array, cell_sent, value_sent};
ghost use Rattle.meaning.specs.Values as meaning;
ghost use Rattle.run_values.specs.Cells.{state_cells};
ghost use Rattle.meaning.specs.State.{program, process_at};
ghost use Rattle.run_code.specs.Prepared.{Prepared, place_at, first_of, size_of};
ghost use Rattle.run_values.specs.Targets.{target_index, assigned_index, fixed_cell};
ghost use Rattle.run_values.specs.Sending.{sent_in};

pub mod store; // store.rt: the cells, by value

use meaning::{Index, Value};
use run_code::{literal, place};
use store::State;

// The cell or channel element of row r whose subscript has this value: its number 1 is the row of the declaration, which tells the first and how many.
fn subscripted(code: &[u16; 6150], r: usize, v: Value) -> Index
    requires table { (rows : List ℤ) × Prepared rows code.now }
    requires inside { r ≤ 1024 }
    ensures { result ≡ in_array (first_of code.now r) (size_of code.now r) v }
{
    let d = place(code, r, 1) as usize;
    base_numbers::subscript(place(code, d, 1), place(code, d, 2), v)
}

// The cell of the element of row r, whose subscript is a literal; reason 0 where it is no such element.
fn fixed_cell(code: &[u16; 6150], r: usize) -> Index
    requires inside { r ≤ 1024 }
    ensures { result ≡ fixed_cell code.now r }
{
    match place(code, r, 0) {
        2 => Index::At(place(code, r, 1) as usize),
        3 => Index::Fails(2),
        _ => Index::Fails(0),
    }
}

// The value of the expression of row r, or the first reason met.
pub fn eval(code: &[u16; 6150], state: &State, r: usize) -> Value
    requires table { (rows : List ℤ) × Prepared rows code.now }
    requires inside { r ≤ 1024 }
    ensures { (rows : List ℤ) → Prepared rows code.now → result ≡ meaning.value (state_cells state.now) (content_at rows r).expr }
{
    match place(code, r, 0) {
        1 => Value::Number(literal(code, r)),
        2 => state.cell(place(code, r, 1) as usize),
        3 => Value::Missing(2),
        4 => {
            let i = eval(code, state, place(code, r, 2) as usize);
            state.cell_at(subscripted(code, r, i))
        }
        5 => {
            let op = place(code, r, 1);
            let b = place(code, r, 2) as usize;
            if op != 2 {
                return base_numbers::monadic_of(op, eval(code, state, b));
            }
            if place(code, b, 0) != 4 {
                return state.given(fixed_cell(code, b));
            }
            let i = eval(code, state, place(code, b, 2) as usize);
            state.given(subscripted(code, b, i))
        }
        6 => {
            let op = place(code, r, 1);
            let v = eval(code, state, place(code, r, 2) as usize);
            match v {
                Value::Missing(k) => Value::Missing(k),
                Value::Number(x) => {
                    if base_numbers::decides(op, x) {
                        return base_numbers::decided(x);
                    }
                    base_numbers::dyadic_after(op, x, eval(code, state, place(code, r, 3) as usize))
                }
            }
        }
        _ => Value::Missing(0),
    }
}

// The cell or channel element of row r: the expression of its second row is the subscript.
pub fn index(code: &[u16; 6150], state: &State, r: usize) -> Index
    requires table { (rows : List ℤ) × Prepared rows code.now }
    requires inside { (r ≤ 1024) × (2 ≤ place_at code.now r 0) }
    ensures { (rows : List ℤ) → Prepared rows code.now → result ≡ meaning.index (state_cells state.now) (first_of code.now r) (size_of code.now r) (content_at rows (place_at code.now r 2)).expr }
{
    let v = eval(code, state, place(code, r, 2) as usize);
    subscripted(code, r, v)
}

// The cell that the element of row r means as a target, or why there is none.
pub fn target(code: &[u16; 6150], state: &State, r: usize) -> Index
    requires table { (rows : List ℤ) × Prepared rows code.now }
    requires inside { r ≤ 1024 }
    ensures { (rows : List ℤ) → Prepared rows code.now → result ≡ target_index (state_cells state.now) (content_at rows r).target }
{
    if place(code, r, 0) != 4 {
        return fixed_cell(code, r);
    }
    index(code, state, r)
}

// What the output of an element passes, by the cell that it means: its number, or none, the absence.
fn cell_sent(state: &State, i: Index) -> Result<Option<i32>, u8>
    ensures { sent_in result ≡ cell_sent (state_cells state.now) i }
{
    match i {
        Index::At(n) => match state.cell(n) {
            Value::Number(x) => Ok(Some(x)),
            Value::Missing(_k) => Ok(None),
        },
        Index::Fails(k) => Err(k),
    }
}

// What the output of any other expression passes: its value.
fn value_sent(v: Value) -> Result<Option<i32>, u8>
    ensures { sent_in result ≡ value_sent v }
{
    match v {
        Value::Number(x) => Ok(Some(x)),
        Value::Missing(k) => Err(k),
    }
}

// What an output passes whose expression is that of row r, or the reason that there is nothing to pass: "one element, unset but
// inside its array", passes none, the absence.
pub fn passed(code: &[u16; 6150], state: &State, r: usize) -> Result<Option<i32>, u8>
    requires table { (rows : List ℤ) × Prepared rows code.now }
    requires inside { r ≤ 1024 }
    ensures { (rows : List ℤ) → Prepared rows code.now → sent_in result ≡ meaning.passed (state_cells state.now) (content_at rows r).expr }
{
    match place(code, r, 0) {
        2 => cell_sent(state, Index::At(place(code, r, 1) as usize)),
        3 => Err(2),
        4 => cell_sent(state, index(code, state, r)),
        _ => value_sent(eval(code, state, r)),
    }
}

// The cell that the assignment of row r assigns to, or why there is none; reason 2 where row r is no assignment.
pub fn assigned(code: &[u16; 6150], state: &State, r: usize) -> Index
    requires table { (rows : List ℤ) × Prepared rows code.now }
    requires inside { r ≤ 1024 }
    ensures { (rows : List ℤ) → Prepared rows code.now → result ≡ assigned_index (state_cells state.now) (action_of (process_at (program rows) r)) }
{
    match place(code, r, 0) {
        46 => Index::At(place(code, r, 1) as usize),
        48 => index(code, state, r),
        _ => Index::Fails(2),
    }
}
