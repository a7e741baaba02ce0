// Refusals 7, 8 and 9: usage in a PAR. Pairs of components are compared in the order of the refusal table, until two clash.
#![tactic(auto)]

ghost use Rattle.std.specs.Prelude.{◌≡◌, false, map, ℕ, ◌+◌, ◌*◌, ◌<◌, ◌≤◌, length};
ghost use Rattle.std.proofs.Math.Option.{none};
ghost use Rattle.meaning.specs.Rows.{row_count, kind_at};
ghost use Rattle.meaning.specs.Tree.{content_at, contents};
ghost use Rattle.meaning.specs.Verdict.{form_fault, limit_fault};
ghost use Rattle.meaning.specs.Usage.{comparisons_in, comparisons_of, clashes, usage_fault, pairs_compared};
ghost use Rattle.meaning.specs.Answers.{checked};
ghost use Rattle.base_layout.specs.Names.{name_in, no_name};
ghost use Rattle.check_usage.specs.Search.{searched, pairs_of, verdict_on, SearchFacts};

mod members; // members.rt: the rows of a PAR's components
mod pairs; // pairs.rt: pairs compared in turn

use base_layout::nodes::{natural, operand};
use base_layout::{NO_NAME, Name, note_names};
use meaning::{Checked, Verdict};
use pairs::ClashFound;

// The pairs of the PAR at row r, if it is one.
fn in_par<'a>(
    rows: &'a [i32],
    sets: &'a [u64],
    number: u8,
    r: usize,
    members: &mut [u16],
    before: u32,
) -> Result<u32, ClashFound>
    requires { SearchFacts rows.now sets.now × (r < row_count rows.now) × (length members.old ≡ 1024) × (before + 1048576 < 4294967296) }
    ensures { (result ≡ searched before (map clashes (comparisons_in number (content_at rows.now r).process))) × (pairs_of result ≤ before + 1048576) }
{
    if natural(rows, r, 0) == 31 {
        let count = members::members_of(rows, operand(rows, r, 1), members);
        return pairs::among(sets, number, &members[..count], before);
    }
    Ok(before)
}

// The pairs of all PARs by row, for one number.
fn in_all<'a>(
    rows: &'a [i32],
    sets: &'a [u64],
    number: u8,
    members: &mut [u16],
    before: u32,
) -> Checked
    requires { SearchFacts rows.now sets.now × (length members.old ≡ 1024) × (before + 1073741824 < 4294967296) }
    ensures { (result ≡ verdict_on before (comparisons_of number (contents rows.now))) × (result.pairs ≤ before + 1073741824) }
{
    let n = rows.len() / 4;
    let mut pairs = before;
    for r in 0..n {
        match in_par(rows, sets, number, r, members, pairs) {
            Ok(compared) => pairs = compared,
            Err(clash) => {
                return Checked {
                    verdict: Verdict::Rejected(number, r as u32),
                    pairs: clash.pairs,
                };
            }
        }
    }
    Checked {
        verdict: Verdict::Accepted,
        pairs,
    }
}

// The three numbers in their order.
fn search<'a>(rows: &'a [i32], sets: &'a [u64]) -> Checked
    requires { SearchFacts rows.now sets.now }
    ensures { result ≡ checked (usage_fault rows.now) (pairs_compared rows.now) }
{
    let mut members = [0u16; 1024];
    let cells = in_all(rows, sets, 7, &mut members, 0);
    if let Verdict::Rejected(..) = cells.verdict {
        return cells;
    }
    let inputs = in_all(rows, sets, 8, &mut members, cells.pairs);
    if let Verdict::Rejected(..) = inputs.verdict {
        return inputs;
    }
    in_all(rows, sets, 9, &mut members, inputs.pairs)
}

// Whether there is a PAR.
fn has_par(rows: &[i32]) -> bool
    ensures { result ≡ false → (r : ℕ) → r < row_count rows.now → kind_at rows.now r ≡ 31 → ⊥ }
{
    let n = rows.len() / 4;
    (0..n).any(|r| natural(rows, r, 0) == 31)
}

// The search, with what the rows name and their sets put into lists that have room for them; that of names has none.
fn search_in(rows: &[i32], names: &mut [Name], sets: &mut [u64]) -> Checked
    requires table { (row_count rows.now ≤ 1024) × (form_fault rows.now ≡ none) × (limit_fault rows.now ≡ none) }
    requires room { (row_count rows.now ≤ length names.old) × (16 * row_count rows.now ≤ length sets.old) }
    requires empty { (i : ℕ) → name_in names.old i ≡ no_name }
    ensures { result ≡ checked (usage_fault rows.now) (pairs_compared rows.now) }
{
    note_names(rows, names);
    let end = 16 * (rows.len() / 4);
    check_components::gather_all(rows, names, &mut sets[..end]);
    search(rows, &sets[..end])
}

// The first clash of a table of right form within the limits, and the count of pairs compared. A table of at most 200 rows has room in shorter lists; one without a PAR needs none.
pub fn first_clash(rows: &[i32]) -> Checked
    requires { (row_count rows.now ≤ 1024) × (form_fault rows.now ≡ none) × (limit_fault rows.now ≡ none) }
    ensures { result ≡ checked (usage_fault rows.now) (pairs_compared rows.now) }
{
    if !has_par(rows) {
        return Checked {
            verdict: Verdict::Accepted,
            pairs: 0,
        };
    }
    if rows.len() <= 800 {
        let mut names = [NO_NAME; 200];
        let mut sets = [0u64; 3200];
        return search_in(rows, &mut names, &mut sets);
    }
    let mut names = [NO_NAME; 1024];
    let mut sets = [0u64; 16384];
    search_in(rows, &mut names, &mut sets)
}
