// The numbers of a row of the table, and the rows that it refers to. Where a row is known to be there, its numbers are read with no test.
ghost use Rattle.std.specs.Prelude.{◌≡◌, ◌<◌};
ghost use Rattle.meaning.specs.Rows.{row_count, field_at, natural_at};
ghost use Rattle.base_layout.specs.Operands.{operand_at};

// Number j of row r: 0 its kind, 1 to 3 its fields.
pub fn field(rows: &[i32], r: usize, j: usize) -> i32
    requires { (r < row_count rows.now) × (j < 4) }
    ensures { result ≡ field_at rows.now r j }
{
    rows[4 * r + j]
}

// The same as a natural number.
pub fn natural(rows: &[i32], r: usize, j: usize) -> u32
    requires { (r < row_count rows.now) × (j < 4) }
    ensures { result ≡ natural_at rows.now r j }
{
    base_rows::natural(field(rows, r, j))
}

// The higher row that number j of row r refers to; past the table where that is no higher row.
pub fn operand(rows: &[i32], r: usize, j: usize) -> usize
    requires { (r < row_count rows.now) × (j < 4) }
    ensures { result ≡ operand_at rows.now r j }
{
    let b = natural(rows, r, j) as usize;
    if r < b { b } else { rows.len() }
}
