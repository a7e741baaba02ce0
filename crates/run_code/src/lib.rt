// A table prepared for the run, as one list of six numbers a row: its numbers are read.
#![tactic(auto)]

ghost use Rattle.std.specs.Prelude.{◌≡◌, ◌<◌, ◌≤◌, get_or};
ghost use Rattle.run_code.specs.Prepared.{place_at, literal_of};

// A row prepared. What it is, a row, cell or operator, two rows that it refers to, its parent and next link; of a declaration its
// first cell or element, how many, its host channel, its capacity and where its strip begins.
#[derive(Drop)]
pub struct Row {
    pub what: u16,
    pub first: u16,
    pub second: u16,
    pub third: u16,
    pub parent: u16,
    pub next: u16,
}

// Number i of the list.
fn number(code: &[u16; 6150], i: usize) -> u16
    requires { i < 6150 }
    ensures { result ≡ get_or code.now i 0 }
{
    code[i]
}

// Number j of row r.
pub fn place(code: &[u16; 6150], r: usize, j: usize) -> u32
    requires inside { (r ≤ 1024) × (j < 6) }
    ensures { result ≡ place_at code.now r j }
{
    number(code, 6 * r + j) as u32
}

// The number of a literal of row r.
pub fn literal(code: &[u16; 6150], r: usize) -> i32
    requires inside { r ≤ 1024 }
    ensures { result ≡ literal_of code.now r }
{
    let low = number(code, 6 * r + 2) as u32;
    let high = number(code, 6 * r + 3) as u32;
    ((low + 65536 * high) as i64 - 2147483648) as i32
}
