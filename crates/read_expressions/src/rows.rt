// The rows that a token of an expression brings.
ghost use Rattle.std.specs.Prelude.{◌≡◌, true, [], ◌∷◌, suc, ◌+◌, ◌-◌, ◌*◌, ◌≤◌, ◌<◌, pos, length, get_or};
ghost use Rattle.read_expressions.specs.Overlay.{overlay};
ghost use Rattle.read_marks.specs.Roles.{role_of, is_between};
ghost use Rattle.read_expressions.specs.TokenRows.{name_rows, name_size, rows_by_sort, size_by_sort, operator_by_sort};
ghost use Rattle.read_expressions.specs.Free.{height_after, filled};

use read_tokens::sorts;

// The kinds of rows: a literal, an element, an operator before its operand, one between operands.
const LITERAL: i32 = 10;

const ELEMENT: i32 = 11;

const MONADIC: i32 = 12;

const DYADIC: i32 = 13;

// Writes the four numbers of row r.
pub fn write_row(rows: &mut [i32], r: usize, kind: i32, a: i32, b: i32, c: i32)
    requires { (r < 1024) × (4 * r + 4 ≤ length rows.old) }
    ensures { rows.new ≡ overlay rows.old (4 * r) (kind ∷ a ∷ b ∷ c ∷ []) }
{
    let start = 4 * r;
    rows[start..start + 4].copy_from_slice(&[kind, a, b, c]);
}

// Writes the rows of a name that means a row, from row n on; how many rows stand then up to their end.
fn write_name(found: i32, subscripted: bool, n: usize, rows: &mut [i32]) -> usize
    requires { (n + name_size subscripted ≤ 1024) × (4 * (n + name_size subscripted) ≤ length rows.old) }
    ensures { (result ≡ n + name_size subscripted) × (rows.new ≡ overlay rows.old (4 * n) (name_rows found n subscripted)) }
{
    write_row(rows, n, ELEMENT, found, (n + 1) as i32, 0);
    if subscripted {
        return n + 1;
    }
    write_row(rows, n + 1, LITERAL, 0, 0, 0);
    n + 2
}

// The same of an operator before its operand.
fn write_monadic(k: i32, n: usize, rows: &mut [i32]) -> usize
    requires { (n < 1024) × (4 * n + 4 ≤ length rows.old) }
    ensures { (result ≡ n + 1) × (rows.new ≡ overlay rows.old (4 * n) (pos 12 ∷ k ∷ pos (suc n) ∷ pos 0 ∷ [])) }
{
    write_row(rows, n, MONADIC, k, (n + 1) as i32, 0);
    n + 1
}

// The same of a token where an operand is wanted.
pub fn write_token(sort: u8, value: i32, subscripted: bool, n: usize, rows: &mut [i32]) -> usize
    requires { (n + size_by_sort sort subscripted ≤ 1024) × (4 * (n + size_by_sort sort subscripted) ≤ length rows.old) }
    ensures { (result ≡ n + size_by_sort sort subscripted) × (rows.new ≡ overlay rows.old (4 * n) (rows_by_sort n sort value subscripted)) }
{
    match sort {
        sorts::NAME => write_name(value, subscripted, n, rows),
        sorts::NUMBER => {
            write_row(rows, n, LITERAL, value, 0, 0);
            n + 1
        }
        sorts::MINUS => write_monadic(0, n, rows),
        sorts::NOT => write_monadic(1, n, rows),
        sorts::GIVEN => write_monadic(2, n, rows),
        _ => n,
    }
}

// The number of an operator between operands.
fn operator(sort: u8, value: i32) -> i32
    ensures { result ≡ operator_by_sort sort value }
{
    match sort {
        sorts::MINUS => 1,
        sorts::AND => 14,
        sorts::OR => 15,
        _ => value,
    }
}

// A token after an operand: an operator fills the last free row, and its second operand begins at row n. How many rows are free then.
pub fn fill(sort: u8, value: i32, free: &[u16], height: usize, n: usize, rows: &mut [i32]) -> usize
    requires { (n ≤ 1024) × (height ≤ length free.now) × (is_between (role_of sort) ≡ true → (0 < height) × (get_or free.now (height - 1) 0 < 1024) × (4 * get_or free.now (height - 1) 0 + 4 ≤ length rows.old)) }
    ensures { (result ≡ height_after sort height) × (rows.new ≡ filled sort value (get_or free.now (height - 1) 0) n rows.old) }
{
    if !read_marks::is_between(sort) {
        return height;
    }
    let r = free[height - 1] as usize;
    write_row(
        rows,
        r,
        DYADIC,
        operator(sort, value),
        (r + 1) as i32,
        n as i32,
    );
    height - 1
}
