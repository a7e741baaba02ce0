// The checker: the verdict on a table, lent as numbers or as bytes, alone or with the count of pairs of components compared. Refusals 2 to 9 and 14.
#![tactic(auto)]

ghost use Rattle.std.specs.Prelude.{◌≡◌, ◌≤◌, length, IfSome, IsSome};
ghost use Rattle.std.proofs.Math.Option.{some};
ghost use Rattle.meaning.specs.Answers.{check, check_bytes, verdict_of, checked, check_counted, check_bytes_counted};

use meaning::{Checked, Verdict};
use read_table::TableError;

// A refusal before components are compared.
fn refused(number: u8, place: u32) -> Checked
    ensures { result ≡ checked (some (number, place)) 0 }
{
    Checked {
        verdict: Verdict::Rejected(number, place),
        pairs: 0,
    }
}

// The verdict on rows lent as numbers, and the count of pairs compared: the stages 3 to 6, 14, and 7 to 9.
pub fn check_rows_counted(rows: &[i32]) -> Checked
    ensures { result ≡ check_counted rows.now }
{
    if let Verdict::Rejected(number, row) = check_form::check_form(rows) {
        return refused(number, row);
    }
    if let Verdict::Rejected(number, place) = check_blocks::block_fault(rows) {
        return refused(number, place);
    }
    check_usage::first_clash(rows)
}

// The verdict alone.
pub fn check_rows(rows: &[i32]) -> Verdict
    ensures { result ≡ verdict_of (check rows.now) }
{
    check_rows_counted(rows).verdict
}

// The verdict on a table's bytes, and the count of pairs compared: the stages 2 and 3, then those on its rows. None if `rows` has no room for them.
fn check_in(table: &[u8], rows: &mut [i32]) -> Option<Checked>
    ensures checked { IfSome result (λ c. c ≡ check_bytes_counted table.now) }
    ensures room { 4096 ≤ length rows.old → IsSome result }
{
    match read_table::read_table(table, rows) {
        Err(TableError::Refused(number, place)) => Some(refused(number, place)),
        Ok(n) => Some(check_rows_counted(&rows[..4 * n])),
        Err(TableError::Full) => None,
    }
}

// The same; there is room for a table of at most 128 rows, and else in a longer list.
pub fn check_table_counted(table: &[u8]) -> Checked
    ensures { result ≡ check_bytes_counted table.now }
{
    let mut small = [0i32; 512];
    match check_in(table, &mut small) {
        Some(checked) => checked,
        None => check_large(table),
    }
}

// The same for a table of more than 128 rows; there is room for every table.
fn check_large(table: &[u8]) -> Checked
    ensures { result ≡ check_bytes_counted table.now }
{
    let mut large = [0i32; 4096];
    match check_in(table, &mut large) {
        Some(checked) => checked,
        None => refused(3, 1024),
    }
}

// The verdict alone.
pub fn check_table(table: &[u8]) -> Verdict
    ensures { result ≡ verdict_of (check_bytes table.now) }
{
    check_table_counted(table).verdict
}
