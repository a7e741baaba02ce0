// A table is prepared for the run: each row's six numbers, from its kind and fields, the declarations, and what is noted of the rows.
#![tactic(auto)]

ghost use Rattle.std.specs.Prelude.{◌≡◌, ◌+◌, ◌<◌, ◌≤◌, replicate};
ghost use Rattle.std.proofs.Math.Option.{none};
ghost use Rattle.meaning.specs.declared.Value.TheVariants.{Number};
ghost use Rattle.meaning.specs.Rows.{row_count, natural_at, kind_at};
ghost use Rattle.meaning.specs.Declarations.{declarations};
ghost use Rattle.meaning.specs.Values.{in_array};
ghost use Rattle.meaning.specs.Answers.{check};
ghost use Rattle.run_code.specs.Prepared.{row, literal_row, kind_in, referred_row, fixed, owner_note, next_note, element_row, assigned_row, kept_row, row_at, prepared, Prepared};
ghost use Rattle.run_preparing.specs.Notes.{Noted, row_put, declaration_row, named_row, Filled};

use base_layout::{NO_SUMS, Name, Sort, name_of, nodes, with_row};
use meaning::{Index, Value};
use run_code::{Row, place};

// The kind of row r; 0 past the table.
fn kind_in(rows: &[i32], r: usize) -> u32
    ensures { result ≡ kind_in rows.now r }
{
    if r < rows.len() / 4 {
        return nodes::natural(rows, r, 0);
    }
    0
}

// The higher row that number j of row r refers to; 1,024 where that is no higher row.
fn referred(rows: &[i32], r: usize, j: usize) -> u16
    requires few { row_count rows.now ≤ 1024 }
    requires inside { (r < row_count rows.now) × (j < 4) }
    ensures { result ≡ referred_row rows.now r j }
{
    let n = nodes::operand(rows, r, j);
    if n < rows.len() / 4 {
        return n as u16;
    }
    1024
}

// A row of an expression.
fn plain(what: u16, first: u16, second: u16, third: u16) -> Row
    ensures { result ≡ row what first second third }
{
    Row {
        what,
        first,
        second,
        third,
        parent: 0,
        next: 0,
    }
}

// A literal.
fn literal(x: i32) -> Row
    ensures { result ≡ literal_row x }
{
    let n = (x as i64 + 2147483648) as u32;
    plain(1, 0, (n % 65536) as u16, (n / 65536) as u16)
}

// The cell that a subscript of value x means.
fn fixed(first: u32, size: u32, x: i32) -> Row
    requires { first + size ≤ 65535 }
    ensures { result ≡ fixed (in_array first size (Number x)) }
{
    let i = base_numbers::subscript(first, size, Value::Number(x));
    match i {
        Index::At(n) => plain(2, n as u16, 0, 0),
        Index::Fails(_k) => plain(3, 0, 0, 0),
    }
}

// Row r, an element: the declarations are in the list.
fn element_row(code: &[u16; 6150], rows: &[i32], r: usize) -> Row
    requires accepted { check rows.now ≡ none }
    requires filled { (declarations rows.now ≤ r) × (r < row_count rows.now) × Filled rows.now r code.now }
    requires named { (natural_at rows.now r 1 < declarations rows.now) × (kind_at rows.now (natural_at rows.now r 1) ≡ 1) }
    ensures { result ≡ element_row rows.now r }
{
    let a = nodes::natural(rows, r, 1) as usize;
    let b = referred(rows, r, 2);
    if kind_in(rows, b as usize) == 10 {
        return fixed(
            place(code, a, 1),
            place(code, a, 2),
            base_rows::field(rows, b as usize, 1),
        );
    }
    plain(4, a as u16, b, 0)
}

// The assignment of row r to what row e is, with the notes of its parent and next link.
fn assigned_row(rows: &[i32], r: usize, e: Row, note: u16, next: u16) -> Row
    requires few { row_count rows.now ≤ 1024 }
    requires inside { (r < row_count rows.now) × (e.what ≤ 4) }
    requires noted { (note ≡ owner_note rows.now 22 r) × (next ≡ next_note rows.now r) }
    ensures { result ≡ assigned_row rows.now r e }
{
    Row {
        what: e.what + 44,
        first: e.first,
        second: e.second,
        third: referred(rows, r, 3),
        parent: note,
        next,
    }
}

// Row r of kind k with its first number, the rows of its other fields, and its notes.
fn kept_row(rows: &[i32], r: usize, k: u16, first: u16, note: u16, next: u16) -> Row
    requires few { row_count rows.now ≤ 1024 }
    requires inside { r < row_count rows.now }
    requires noted { (note ≡ owner_note rows.now k r) × (next ≡ next_note rows.now r) }
    ensures { result ≡ kept_row rows.now r k first }
{
    Row {
        what: k,
        first,
        second: referred(rows, r, 2),
        third: referred(rows, r, 3),
        parent: note,
        next,
    }
}

// Row r, which is no declaration, prepared.
fn row_at(
    code: &[u16; 6150],
    rows: &[i32],
    parents: &[u16; 1024],
    nexts: &[u16; 1024],
    owners: &[u16; 1024],
    r: usize,
) -> Row
    requires accepted { check rows.now ≡ none }
    requires filled { (declarations rows.now ≤ r) × (r < row_count rows.now) × Filled rows.now r code.now }
    requires noted { Noted rows.now parents.now nexts.now owners.now }
    ensures { result ≡ row_at rows.now r }
{
    let k = nodes::natural(rows, r, 0);
    match k {
        10 => literal(nodes::field(rows, r, 1)),
        11 => element_row(code, rows, r),
        12 => plain(
            5,
            nodes::natural(rows, r, 1) as u16,
            referred(rows, r, 2),
            0,
        ),
        13 => plain(
            6,
            nodes::natural(rows, r, 1) as u16,
            referred(rows, r, 2),
            referred(rows, r, 3),
        ),
        22 => assigned_row(rows, r, element_row(code, rows, r), parents[r], nexts[r]),
        // kept: an arm for each kind, as the edit `variable_of_a_block_not_kept` names that of blocks
        23 => kept_row(
            rows,
            r,
            23,
            nodes::natural(rows, r, 1) as u16,
            parents[r],
            nexts[r],
        ),
        24 => kept_row(
            rows,
            r,
            24,
            nodes::natural(rows, r, 1) as u16,
            parents[r],
            nexts[r],
        ),
        35 => kept_row(
            rows,
            r,
            35,
            nodes::natural(rows, r, 1) as u16,
            parents[r],
            nexts[r],
        ),
        42 => kept_row(rows, r, 42, referred(rows, r, 1), owners[r], nexts[r]),
        _ => {
            if k < 20 {
                return plain(0, 0, 0, 0);
            }
            if k < 44 {
                return kept_row(
                    rows,
                    r,
                    k as u16,
                    referred(rows, r, 1),
                    parents[r],
                    nexts[r],
                );
            }
            plain(0, 0, 0, 0)
        }
    }
}

// The six numbers of row r are put into the list.
fn put(code: &mut [u16; 6150], r: usize, row: Row)
    requires { r ≤ 1024 }
    ensures { code.new ≡ row_put code.old r row }
{
    let at = 6 * r;
    code[at] = row.what;
    code[at + 1] = row.first;
    code[at + 2] = row.second;
    code[at + 3] = row.third;
    code[at + 4] = row.parent;
    code[at + 5] = row.next;
}

// A declaration with one more than its host channel number, and where its strip begins.
fn declaration(name: Name, host: u16, strip: u16) -> Row
    ensures { result ≡ declaration_row name host strip }
{
    Row {
        what: 0,
        first: name.first,
        second: name.size,
        third: host,
        parent: name.capacity,
        next: strip,
    }
}

// The declaration of a name, where the capacities before it add up to `strip`.
fn named_row(name: Name, strip: u16) -> Row
    requires { name.number < 65535 }
    ensures { result ≡ named_row name strip }
{
    match name.sort {
        Sort::Source => declaration(name, name.number + 1, 0),
        Sort::Sink => declaration(name, name.number + 1, strip),
        _ => declaration(name, 0, 0),
    }
}

// The declarations are put into a list of zeros.
fn declare(rows: &[i32], code: &mut [u16; 6150])
    requires accepted { check rows.now ≡ none }
    requires empty { code.old ≡ replicate 6150 0 }
    ensures { Filled rows.now (declarations rows.now) code.new }
{
    let n = base_rows::declarations(rows);
    let mut s = NO_SUMS;
    let mut strip: u16 = 0;
    for r in 0..n {
        let name = name_of(rows, r, s);
        put(code, r, named_row(name, strip));
        strip += name.capacity;
        s = with_row(rows, r, s);
    }
}

// The other rows are put after the declarations.
fn fill(
    rows: &[i32],
    parents: &[u16; 1024],
    nexts: &[u16; 1024],
    owners: &[u16; 1024],
    code: &mut [u16; 6150],
)
    requires accepted { check rows.now ≡ none }
    requires filled { Filled rows.now (declarations rows.now) code.old }
    requires noted { Noted rows.now parents.now nexts.now owners.now }
    ensures { code.new ≡ prepared rows.now }
{
    for r in base_rows::declarations(rows)..rows.len() / 4 {
        let row = row_at(code, rows, parents, nexts, owners, r);
        put(code, r, row);
    }
}

// An accepted table, prepared in a list of zeros.
pub fn prepare(rows: &[i32], code: &mut [u16; 6150])
    requires accepted { check rows.now ≡ none }
    requires empty { code.old ≡ replicate 6150 0 }
    ensures { Prepared rows.now code.new }
{
    let mut owners = [0u16; 1024];
    run_parents::owners::note_owners(rows, &mut owners);
    let mut parents = [0u16; 1024];
    let mut nexts = [0u16; 1024];
    run_parents::parents::note_parents(rows, &mut parents, &mut nexts);
    declare(rows, code);
    fill(rows, &parents, &nexts, &owners, code);
}
