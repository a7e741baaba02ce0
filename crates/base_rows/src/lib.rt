// Numbers of rows, declarations, and the limits on them. Each function is its definition in the crate `meaning`.
#![tactic(auto)]

ghost use Rattle.std.specs.Prelude.{◌≡◌};
ghost use Rattle.meaning.specs.Basics.{inside};
ghost use Rattle.meaning.specs.Rows.{natural_of, row_count, field_at, natural_at, kind_at};
ghost use Rattle.meaning.specs.Declarations.{declares, declarations, is_variable, is_channel, has_role, cells_at, elements_at, host_channels_at, capacity_at};

pub mod limits; // limits.rt: refusal 6

// Whether a number is from lo to hi.
pub fn inside(lo: i32, hi: i32, z: i32) -> bool
    ensures { result ≡ inside lo hi z }
{
    lo <= z && z <= hi
}

// A field as a row number; a negative one is past every row.
pub fn natural(x: i32) -> u32
    ensures { result ≡ natural_of x }
{
    if x < 0 { 4294967295 } else { x as u32 }
}

// The number of rows.
pub fn row_count(rows: &[i32]) -> usize
    ensures { result ≡ row_count rows.now }
{
    rows.len() / 4
}

// Number j of row r, 0 past the end. Within the rows one test is enough.
pub fn field(rows: &[i32], r: usize, j: usize) -> i32
    ensures { result ≡ field_at rows.now r j }
{
    if r < rows.len() / 4 && j < 4 {
        return rows[4 * r + j];
    }
    if rows.len() <= r || rows.len() <= j {
        return 0;
    }
    let at = 4 * r + j;
    if at < rows.len() { rows[at] } else { 0 }
}

// The same as a row number.
pub fn natural_field(rows: &[i32], r: usize, j: usize) -> u32
    ensures { result ≡ natural_at rows.now r j }
{
    natural(field(rows, r, j))
}

// The kind of row r.
pub fn kind(rows: &[i32], r: usize) -> u32
    ensures { result ≡ kind_at rows.now r }
{
    natural_field(rows, r, 0)
}

// Whether row r is of kind 1 or 2.
pub fn declares(rows: &[i32], r: usize) -> bool
    ensures { result ≡ declares rows.now r }
{
    let k = kind(rows, r);
    k == 1 || k == 2
}

// How many declarations there are: the first row that is none.
pub fn declarations(rows: &[i32]) -> usize
    ensures { result ≡ declarations rows.now }
{
    let n = row_count(rows);
    (0..n).find(|&r| !declares(rows, r)).unwrap_or(n)
}

// Whether row r, of d declarations, is a variable.
fn is_variable(rows: &[i32], d: usize, r: usize) -> bool
    requires { d ≡ declarations rows.now }
    ensures { result ≡ is_variable rows.now r }
{
    r < d && kind(rows, r) == 1
}

// Whether row r, of d declarations, is a channel.
pub fn is_channel(rows: &[i32], d: usize, r: usize) -> bool
    requires { d ≡ declarations rows.now }
    ensures { result ≡ is_channel rows.now r }
{
    r < d && kind(rows, r) == 2
}

// Whether row r, of d declarations, is a channel of a role: 0 inner, 1 from the host, 2 to the host.
pub fn has_role(role: u32, rows: &[i32], d: usize, r: usize) -> bool
    requires { d ≡ declarations rows.now }
    ensures { result ≡ has_role role rows.now r }
{
    is_channel(rows, d, r) && natural_field(rows, r, 2) == role
}

// The cells, the elements, the channels of a role and the capacity that row r, of d declarations, declares.
pub fn cells_at(rows: &[i32], d: usize, r: usize) -> u32
    requires { d ≡ declarations rows.now }
    ensures { result ≡ cells_at rows.now r }
{
    if is_variable(rows, d, r) {
        natural_field(rows, r, 1)
    } else {
        0
    }
}

pub fn elements_at(rows: &[i32], d: usize, r: usize) -> u32
    requires { d ≡ declarations rows.now }
    ensures { result ≡ elements_at rows.now r }
{
    if is_channel(rows, d, r) {
        natural_field(rows, r, 1)
    } else {
        0
    }
}

pub fn host_channels_at(role: u32, rows: &[i32], d: usize, r: usize) -> u32
    requires { d ≡ declarations rows.now }
    ensures { result ≡ host_channels_at role rows.now r }
{
    if has_role(role, rows, d, r) { 1 } else { 0 }
}

pub fn capacity_at(rows: &[i32], d: usize, r: usize) -> u32
    requires { d ≡ declarations rows.now }
    ensures { result ≡ capacity_at rows.now r }
{
    if has_role(2, rows, d, r) {
        natural_field(rows, r, 3)
    } else {
        0
    }
}
