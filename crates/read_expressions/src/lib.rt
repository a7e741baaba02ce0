// The rows of an expression, written from its tokens without recursion and without a tree.
#![tactic(auto)]

ghost use Rattle.std.specs.Prelude.{◌≡◌, length, drop};
ghost use Rattle.read_tokens.specs.Held.{tokens_resolved};
ghost use Rattle.read_marks.specs.Marks.{Marked};
ghost use Rattle.read_expressions.specs.TokenRows.{subscripted};
ghost use Rattle.read_expressions.specs.Expressions.{end_of, with_rows, Writable, Scratch, ScratchKept};

mod rows; // rows.rt: the rows that a token brings

use read_tokens::sorts;
pub use rows::write_row;

// Whether the token at a place begins a subscript; there may be none.
fn begins_subscript(tokens: &[u8], at: usize) -> bool
    ensures { result ≡ subscripted (drop at tokens.now) }
{
    tokens.get(at) == Some(&sorts::SQUARE_OPEN)
}

// Writes the rows of an expression from row n on, by the marks of its tokens; how many rows stand then up to their end. The stack holds the rows that are left free.
fn lay(
    sorts: &[u8],
    values: &[i32],
    marks: &[u8],
    n: usize,
    free: &mut [u16],
    rows: &mut [i32],
) -> usize
    requires { Writable (tokens_resolved sorts.now values.now) n rows.old × Scratch sorts.now values.now marks.now free.old × Marked sorts.now marks.now }
    ensures { (length free.new ≡ length free.old) × (result ≡ end_of (tokens_resolved sorts.now values.now) n) × (rows.new ≡ with_rows (tokens_resolved sorts.now values.now) n rows.old) }
{
    let mut had = false;
    let mut height: usize = 0;
    let mut r = n;
    for k in 0..sorts.len() {
        let sort = sorts[k];
        let value = values[k];
        if had {
            height = rows::fill(sort, value, free, height, r, rows);
        } else {
            let mark = marks[k] as usize;
            free[height] = r as u16;
            height += mark;
            let subscripted = begins_subscript(sorts, k + 1);
            r = rows::write_token(sort, value, subscripted, r + mark, rows);
        }
        had = read_marks::had_after(sort);
    }
    r
}

// Writes the rows of the expression that tokens spell, the first of them row n; how many rows stand then up to their end. Marks and stack are scratch.
pub fn write_phrase(
    sorts: &[u8],
    values: &[i32],
    n: usize,
    marks: &mut [u8],
    stack: &mut [u16],
    rows: &mut [i32],
) -> usize
    requires { Writable (tokens_resolved sorts.now values.now) n rows.old × Scratch sorts.now values.now marks.old stack.old }
    ensures { ScratchKept marks.old stack.old marks.new stack.new × (result ≡ end_of (tokens_resolved sorts.now values.now) n) × (rows.new ≡ with_rows (tokens_resolved sorts.now values.now) n rows.old) }
{
    read_marks::mark(sorts, stack, marks);
    lay(sorts, values, marks, n, stack, rows)
}
