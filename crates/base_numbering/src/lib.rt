// Top-down numbers of the rows of a table, without recursion: sizes from the last row to the first, numbers from the first to the last.
#![tactic(auto)]

ghost use Rattle.std.specs.Prelude.{◌≡◌, suc, ◌≤◌, ◌<◌, length};
ghost use Rattle.meaning.specs.Rows.{row_count};
ghost use Rattle.meaning.specs.Declarations.{declarations};
ghost use Rattle.base_kinds.specs.Table.{field_meant, KindTable};
ghost use Rattle.base_top_down.specs.Forms.{is_reference, form_at, form_size};
ghost use Rattle.base_top_down.specs.New.{FormPassed, Sizes, RightAt, Numbered, Numbers};
ghost use Rattle.base_numbering.specs.Fields.{held_in, placed_in};
ghost use Rattle.base_numbering.specs.Arrays.{sizes_from, numbered_row, numbers_over};

// Whether a field refers to a row: by its entry in the table of kinds.
pub fn refers(entry: u64) -> bool
    ensures { result ≡ is_reference (field_meant entry) }
{
    match entry % 16 {
        base_kinds::REFERENCE => true,
        base_kinds::LINK => true,
        _ => false,
    }
}

// How many rows a field holds: those of the row that it refers to.
fn held(sizes: &[u32], entry: u64, z: i32) -> u32
    ensures { result ≡ held_in sizes.now (is_reference (field_meant entry)) z }
{
    if refers(entry) {
        let t = base_rows::natural(z) as usize;
        if t < sizes.len() {
            return sizes[t];
        }
    }
    0
}

// Gives the row that a field refers to its number.
fn place(numbers: &mut [u32], entry: u64, z: i32, v: u32)
    ensures { numbers.new ≡ placed_in numbers.old (is_reference (field_meant entry)) z v }
{
    if refers(entry) {
        let t = base_rows::natural(z) as usize;
        if t < numbers.len() {
            numbers[t] = v;
        }
    }
}

// How many rows the form of row r has, from the sizes of later rows.
fn row_size(table: &[[u64; 3]], rows: &[i32], sizes: &[u32], r: usize) -> u32
    requires { KindTable table.now × (FormPassed rows.now × (Sizes rows.now (suc r) sizes.now × ((declarations rows.now ≤ r) × (r < row_count rows.now)))) }
    ensures { result ≡ form_size (form_at rows.now r) }
{
    let s = base_kinds::shape_of(table, base_rows::kind(rows, r));
    let a = held(sizes, s.a, base_rows::field(rows, r, 1));
    let b = held(sizes, s.b, base_rows::field(rows, r, 2));
    let c = held(sizes, s.c, base_rows::field(rows, r, 3));
    1 + a + b + c
}

// The sizes of all rows from the root on, from the last to the first.
pub fn measure(rows: &[i32], sizes: &mut [u32])
    requires { FormPassed rows.now × ((row_count rows.now ≤ length sizes.old) × (length sizes.old ≤ 1024)) }
    ensures numbers { sizes.new ≡ sizes_from rows.now (declarations rows.now) sizes.old }
    ensures meaning { Sizes rows.now (declarations rows.now) sizes.new }
{
    let table = base_kinds::kind_table();
    let d = base_rows::declarations(rows);
    for r in (d..base_rows::row_count(rows)).rev() {
        let v = row_size(&table, rows, sizes, r);
        sizes[r] = v;
    }
}

// Gives the rows that row r refers to their numbers, from its own.
fn number_row(table: &[[u64; 3]], rows: &[i32], sizes: &[u32], numbers: &mut [u32], r: usize)
    requires { KindTable table.now × (FormPassed rows.now × (Sizes rows.now (suc r) sizes.now × (((declarations rows.now ≤ r) × (r < row_count rows.now)) × (((row_count rows.now ≤ length numbers.old) × (length numbers.old ≤ 1024)) × RightAt rows.now numbers.old r)))) }
    ensures numbers { numbers.new ≡ numbered_row rows.now r numbers.old }
    ensures meaning { Numbered rows.now r numbers.old numbers.new }
{
    let s = base_kinds::shape_of(table, base_rows::kind(rows, r));
    let a = base_rows::field(rows, r, 1);
    let b = base_rows::field(rows, r, 2);
    let c = base_rows::field(rows, r, 3);
    let at_a = numbers[r] + 1;
    let at_b = at_a + held(sizes, s.a, a);
    let at_c = at_b + held(sizes, s.b, b);
    place(numbers, s.a, a, at_a);
    place(numbers, s.b, b, at_b);
    place(numbers, s.c, c, at_c);
}

// The new numbers of all rows from the root on, from the first to the last.
pub fn number(rows: &[i32], sizes: &[u32], numbers: &mut [u32])
    requires { FormPassed rows.now × (Sizes rows.now (declarations rows.now) sizes.now × ((row_count rows.now ≤ length numbers.old) × (length numbers.old ≤ 1024))) }
    ensures numbers { numbers.new ≡ numbers_over rows.now numbers.old }
    ensures meaning { Numbers rows.now numbers.new }
{
    let table = base_kinds::kind_table();
    let d = base_rows::declarations(rows);
    let n = base_rows::row_count(rows);
    numbers[d] = d as u32;
    for r in d..n {
        number_row(&table, rows, sizes, numbers, r);
    }
}
