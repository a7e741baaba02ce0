// The form of a table's rows: refusals 3 to 6. Each function is its definition in the crate `meaning`.
#![tactic(auto)]

ghost use Rattle.std.specs.Prelude.{◌≡◌, [], ◌∷◌};
ghost use Rattle.meaning.specs.Refusals.{first_fault};
ghost use Rattle.meaning.specs.Answers.{verdict_of};
ghost use Rattle.meaning.specs.Basics.{lowest};
ghost use Rattle.meaning.specs.Rows.{row_count};
ghost use Rattle.meaning.specs.TableBytes.{numbers_fault};
ghost use Rattle.meaning.specs.Declarations.{declarations};
ghost use Rattle.meaning.specs.Verdict.{form_fault_at, form_fault, tree_fault, limit_fault};
ghost use Rattle.base_rows.specs.Places.{place_of};

mod fields; // fields.rt: refusal 4

use meaning::Verdict;

// Refusal 4: the lowest row of unknown kind, declared late, or not as its kind says.
fn form_fault(rows: &[i32]) -> Option<usize>
    ensures { result ≡ place_of (lowest (form_fault_at rows.now (declarations rows.now)) (row_count rows.now)) }
{
    let table = base_kinds::kind_table();
    fields::first_form_fault_at(&table, rows, base_rows::declarations(rows))
}

// The verdict on rows lent as numbers by the stages 3 to 6, in their order.
pub fn check_form(rows: &[i32]) -> Verdict
    ensures { result ≡ verdict_of (first_fault (numbers_fault ∷ form_fault ∷ tree_fault ∷ limit_fault ∷ []) rows.now) }
{
    let n = base_rows::row_count(rows);
    if 1024 < n {
        return Verdict::Rejected(3, 1024);
    }
    if rows.len() % 4 != 0 {
        return Verdict::Rejected(3, n as u32);
    }
    if let Some(r) = form_fault(rows) {
        return Verdict::Rejected(4, r as u32);
    }
    if let Some(r) = check_tree::tree_fault(rows) {
        return Verdict::Rejected(5, r as u32);
    }
    if let Some(r) = base_rows::limits::limit_fault(rows) {
        return Verdict::Rejected(6, r as u32);
    }
    Verdict::Accepted
}
