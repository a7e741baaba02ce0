// The table numbered top down: each row is written where its new number says.
#![tactic(auto)]

ghost use Rattle.std.specs.Prelude.{◌≡◌, true, ℕ, ◌+◌, ◌*◌, ◌≤◌, ◌<◌, length, get_or};
ghost use Rattle.meaning.specs.Rows.{natural_of, row_count};
ghost use Rattle.meaning.specs.Declarations.{declarations};
ghost use Rattle.base_kinds.specs.Table.{field_meant, KindTable};
ghost use Rattle.base_top_down.specs.Forms.{is_reference, top_down};
ghost use Rattle.base_top_down.specs.New.{FormPassed, Numbers, RightNumber, Wrote};
ghost use Rattle.base_renumbering.specs.Written.{renumbered_in, set_four};

// What is written for a field: the number of the row that it refers to, and any other number as it is.
fn renumbered(numbers: &[u32], entry: u64, z: i32) -> i32
    requires { is_reference (field_meant entry) ≡ true → get_or numbers.now (natural_of z) 0 < 2147483648 }
    ensures { result ≡ renumbered_in numbers.now (is_reference (field_meant entry)) z }
{
    if base_numbering::refers(entry) {
        let t = base_rows::natural(z) as usize;
        if t < numbers.len() {
            return numbers[t] as i32;
        }
    }
    z
}

// Writes four numbers from a place on.
fn write_four(out: &mut [i32], at: usize, k: i32, a: i32, b: i32, c: i32)
    requires { at + 3 < length out.old }
    ensures { out.new ≡ set_four out.old at k a b c }
{
    out[at] = k;
    out[at + 1] = a;
    out[at + 2] = b;
    out[at + 3] = c;
}

// Writes row r where it belongs in the table that is numbered top down.
fn write_row(table: &[[u64; 3]], rows: &[i32], numbers: &[u32], r: usize, out: &mut [i32])
    requires { KindTable table.now × (FormPassed rows.now × (Numbers rows.now numbers.now × (((declarations rows.now ≤ r) × (r < row_count rows.now)) × (length out.old ≡ 4 * row_count rows.now)))) }
    ensures { Wrote rows.now (get_or numbers.now r 0) out.old out.new }
{
    let s = base_kinds::shape_of(table, base_rows::kind(rows, r));
    let k = base_rows::field(rows, r, 0);
    let a = renumbered(numbers, s.a, base_rows::field(rows, r, 1));
    let b = renumbered(numbers, s.b, base_rows::field(rows, r, 2));
    let c = renumbered(numbers, s.c, base_rows::field(rows, r, 3));
    write_four(out, 4 * numbers[r] as usize, k, a, b, c);
}

// Copies the declarations.
fn copy_declarations(rows: &[i32], d: usize, out: &mut [i32])
    requires { (d ≡ declarations rows.now) × ((row_count rows.now ≤ 1024) × (4 * row_count rows.now ≤ length out.old)) }
    ensures { (length out.new ≡ length out.old) × ((p : ℕ) → p < 4 * d → RightNumber rows.now out.new p) }
{
    out[..4 * d].copy_from_slice(&rows[..4 * d]);
}

// The table numbered top down.
fn renumber(rows: &[i32], numbers: &[u32], out: &mut [i32])
    requires { FormPassed rows.now × (Numbers rows.now numbers.now × (length out.old ≡ 4 * row_count rows.now)) }
    ensures { out.new ≡ top_down rows.now }
{
    let table = base_kinds::kind_table();
    let d = base_rows::declarations(rows);
    let n = base_rows::row_count(rows);
    copy_declarations(rows, d, out);
    for r in d..n {
        write_row(&table, rows, numbers, r, out);
    }
}

// The table numbered top down, from its rows alone.
pub fn top_down(rows: &[i32], out: &mut [i32])
    requires { FormPassed rows.now × (length out.old ≡ 4 * row_count rows.now) }
    ensures { out.new ≡ top_down rows.now }
{
    let mut sizes = [0u32; 1024];
    let mut numbers = [0u32; 1024];
    base_numbering::measure(rows, &mut sizes);
    base_numbering::number(rows, &sizes, &mut numbers);
    renumber(rows, &numbers, out);
}
