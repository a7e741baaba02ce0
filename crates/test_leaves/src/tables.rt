// A table's bytes by the stages 2 to 6, and the value of an expression of an accepted table.
ghost use Rattle.std.specs.Prelude.{◌≡◌, ◌<◌};
ghost use Rattle.std.proofs.Math.Option.{none};
ghost use Rattle.meaning.specs.Rows.{row_count};
ghost use Rattle.meaning.specs.Tree.{content_at};
ghost use Rattle.meaning.specs.Values.{value};
ghost use Rattle.meaning.specs.Answers.{check, verdict_of};
ghost use Rattle.test_leaves.specs.Lent.{value_lent, verdict_lent};
ghost use Rattle.test_leaves.specs.Leaves.{form_of_bytes, cells_lent, value_at};

use crate::lending;
use meaning::{Value, Verdict};
use read_table::TableError;

// The verdict on a table's bytes by the stages 2 to 6.
fn form_of_bytes(bytes: &[u8]) -> Verdict
    ensures { result ≡ verdict_of (form_of_bytes bytes.now) }
{
    let mut rows = [0i32; 4096];
    match read_table::read_table(bytes, &mut rows) {
        Err(TableError::Refused(number, place)) => Verdict::Rejected(number, place),
        Ok(n) => check_form::check_form(&rows[..4 * n]),
        Err(TableError::Full) => Verdict::Rejected(3, 1024),
    }
}

// The number of the first refusal of the stages 2 to 6, its place at the start of `place`; 0 if there is none.
#[unsafe(no_mangle)]
pub extern "C" fn leaf_check(bytes: &[u8], place: &mut [u32]) -> u32
    ensures { (result, place.new) ≡ verdict_lent (verdict_of (form_of_bytes bytes.now)) place.old }
{
    lending::put_verdict(form_of_bytes(bytes), place)
}

// The value of the expression of row r, which is in an accepted table.
fn value_in<'a>(rows: &'a [i32], values: &'a [i32], marks: &'a [u8], r: usize) -> Value
    requires accepted { check rows.now ≡ none }
    requires inside { r < row_count rows.now }
    ensures { result ≡ value (cells_lent values.now marks.now) (content_at rows.now r).expr }
{
    let mut code = [0u16; 6150];
    run_preparing::prepare(rows, &mut code);
    let mut state = run_values::store::fresh();
    lending::put_list(values, &mut state.values);
    lending::put_list(marks, &mut state.marks);
    run_values::eval(&code, &state, r)
}

// The value of the expression of row r; none if the table is refused, or has no such row.
fn value_at<'a>(rows: &'a [i32], values: &'a [i32], marks: &'a [u8], r: usize) -> Value
    ensures { result ≡ value_at rows.now (cells_lent values.now marks.now) r }
{
    if rows.len() / 4 <= r {
        return Value::Missing(0);
    }
    let verdict = check_verdict::check_rows(rows);
    match verdict {
        Verdict::Rejected(_, _) => Value::Missing(0),
        Verdict::Accepted => value_in(rows, values, marks, r),
    }
}

// 0 and the value of the expression of row r at the start of `out`, or the reason that there is none, 256 if there is no expression.
#[unsafe(no_mangle)]
pub extern "C" fn leaf_value<'a>(
    rows: &'a [i32],
    values: &'a [i32],
    marks: &'a [u8],
    r: usize,
    out: &mut [i32],
) -> u32
    ensures { (result, out.new) ≡ value_lent (value_at rows.now (cells_lent values.now marks.now) r) out.old }
{
    lending::put_value(value_at(rows, values, marks, r), out)
}
