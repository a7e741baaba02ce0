// Refusal 5: references that lead to a higher row of the kind named, and rows that are referred to once.
#![tactic(auto)]

ghost use Rattle.std.specs.Prelude.{◌≡◌, not, ℕ, suc, ◌<◌, ◌≤◌, length, get_or, eqb, is_some};
ghost use Rattle.std.specs.Option.{option_to_list};
ghost use Rattle.meaning.specs.Basics.{if_else, lowest};
ghost use Rattle.meaning.specs.Rows.{row_count};
ghost use Rattle.meaning.specs.Declarations.{declarations};
ghost use Rattle.meaning.specs.Verdict.{refers, leads, leads_by, target_of, target, targets_by, targets_below, wrong_root, row_fault_at, tree_fault_at};
ghost use Rattle.check_tree.specs.Counts.{one_more_for, ReferencesCounted};
ghost use Rattle.base_kinds.specs.Table.{numbers_in, field_meant, meant_shape, KindTable};
ghost use Rattle.base_rows.specs.Places.{place_of};

use base_kinds::Shape;

// The row that a reference of row r leads to, if that is a higher row of one of these kinds.
fn followed(rows: &[i32], r: usize, kinds: u64, z: i32) -> Option<usize>
    ensures right { is_some result ≡ refers rows.now r (numbers_in kinds) z }
    ensures row { option_to_list result ≡ target_of rows.now r (numbers_in kinds) z }
{
    if z < 0 {
        return None;
    }
    let t = base_rows::natural(z) as usize;
    if r < t
        && t < base_rows::row_count(rows)
        && base_kinds::in_mask(kinds, base_rows::kind(rows, t))
    {
        Some(t)
    } else {
        None
    }
}

// Whether a field of row r leads to where it may, by its entry in the table of kinds.
fn leads(rows: &[i32], r: usize, entry: u64, z: i32) -> bool
    ensures { result ≡ leads rows.now r (field_meant entry) z }
{
    match entry % 16 {
        base_kinds::REFERENCE => followed(rows, r, entry / 16, z).is_some(),
        base_kinds::LINK => z == -1 || followed(rows, r, entry / 16, z).is_some(),
        _ => true,
    }
}

// The row that a field of row r rightly refers to, by its entry in the table of kinds.
fn target(rows: &[i32], r: usize, entry: u64, z: i32) -> Option<usize>
    ensures { option_to_list result ≡ target rows.now r (field_meant entry) z }
{
    match entry % 16 {
        base_kinds::REFERENCE => followed(rows, r, entry / 16, z),
        base_kinds::LINK => followed(rows, r, entry / 16, z),
        _ => None,
    }
}

// Whether the references of row r lead to where they may.
fn leads_by(rows: &[i32], r: usize, s: Shape) -> bool
    ensures { (k : ℕ) → result ≡ leads_by rows.now r (meant_shape k s) }
{
    if s.a == base_kinds::NO_KIND {
        return true;
    }
    leads(rows, r, s.a, base_rows::field(rows, r, 1))
        && leads(rows, r, s.b, base_rows::field(rows, r, 2))
        && leads(rows, r, s.c, base_rows::field(rows, r, 3))
}

// Counts a right reference; two stand for more.
fn note(counts: &mut [u8], referred: Option<usize>)
    ensures { counts.new ≡ one_more_for counts.old (option_to_list referred) }
{
    if let Some(t) = referred {
        if t < counts.len() && counts[t] < 2 {
            counts[t] += 1;
        }
    }
}

// Counts the right references of row r.
fn note_by(rows: &[i32], r: usize, s: Shape, counts: &mut [u8])
    ensures { (k : ℕ) → counts.new ≡ one_more_for counts.old (targets_by rows.now r (meant_shape k s)) }
{
    if s.a != base_kinds::NO_KIND {
        note(counts, target(rows, r, s.a, base_rows::field(rows, r, 1)));
        note(counts, target(rows, r, s.b, base_rows::field(rows, r, 2)));
        note(counts, target(rows, r, s.c, base_rows::field(rows, r, 3)));
    }
}

// Counts the right references of all rows.
fn count_references(table: &[[u64; 3]], rows: &[i32], counts: &mut [u8])
    requires { KindTable table.now }
    ensures { counts.new ≡ one_more_for counts.old (targets_below rows.now (row_count rows.now)) }
{
    let n = base_rows::row_count(rows);
    for r in 0..n {
        note_by(
            rows,
            r,
            base_kinds::shape_of(table, base_rows::kind(rows, r)),
            counts,
        );
    }
}

// Whether row r is the root and no process.
fn wrong_root(rows: &[i32], d: usize, r: usize) -> bool
    ensures { result ≡ wrong_root rows.now d r }
{
    r == d && !base_kinds::is_process(base_rows::kind(rows, r))
}

// Whether row r is counted other than once, or the root other than never.
fn not_referred_once(counts: &[u8], d: usize, r: usize) -> bool
    requires { r < length counts.now }
    ensures { result ≡ not (eqb (get_or counts.now r 0) (if_else (eqb r d) 0 1)) }
{
    if r == d {
        counts[r] != 0
    } else {
        counts[r] != 1
    }
}

// Whether row r has a wrong reference, is a wrong root, or is not referred to as it should be.
fn row_fault_at(table: &[[u64; 3]], rows: &[i32], d: usize, counts: &[u8], r: usize) -> bool
    requires { KindTable table.now × (ReferencesCounted rows.now counts.now × (r < row_count rows.now)) }
    ensures { result ≡ row_fault_at rows.now d (targets_below rows.now (row_count rows.now)) r }
{
    let shape = base_kinds::shape_of(table, base_rows::kind(rows, r));
    !leads_by(rows, r, shape) || wrong_root(rows, d, r) || not_referred_once(counts, d, r)
}

// The lowest row from the root on that is, or the count of rows if there is no root.
fn first_row_fault_at(table: &[[u64; 3]], rows: &[i32], d: usize, counts: &[u8]) -> Option<usize>
    requires { KindTable table.now × (ReferencesCounted rows.now counts.now × (d ≡ declarations rows.now)) }
    ensures { result ≡ place_of (lowest (tree_fault_at rows.now d (targets_below rows.now (row_count rows.now))) (suc (row_count rows.now))) }
{
    let n = base_rows::row_count(rows);
    for r in d..n {
        if row_fault_at(table, rows, d, counts, r) {
            return Some(r);
        }
    }
    if d == n { Some(n) } else { None }
}

// The lowest place at fault in a table of at most 1,024 rows.
pub fn tree_fault(rows: &[i32]) -> Option<usize>
    requires { row_count rows.now ≤ 1024 }
    ensures { result ≡ place_of (lowest (tree_fault_at rows.now (declarations rows.now) (targets_below rows.now (row_count rows.now))) (suc (row_count rows.now))) }
{
    let table = base_kinds::kind_table();
    let mut counts = [0u8; 1024];
    count_references(&table, rows, &mut counts);
    first_row_fault_at(&table, rows, base_rows::declarations(rows), &counts)
}
