// The ALT of each option, noted once for a table.
ghost use Rattle.std.specs.Prelude.{◌≡◌, ℕ, ◌+◌, ◌<◌, ◌≤◌, length, get_or};
ghost use Rattle.meaning.specs.Basics.{among};
ghost use Rattle.meaning.specs.Rows.{row_count};
ghost use Rattle.meaning.specs.Tree.{content_at};
ghost use Rattle.agreement.specs.RowsOfSteps.{rows_of_options};
ghost use Rattle.run_parents.specs.Marks.{first_note, note_at, owner_notes};

use base_layout::nodes::{natural, operand};

// Notes `note` at row t, where there is none yet.
pub fn note_at(notes: &mut [u16], t: usize, note: u16)
    ensures { notes.new ≡ note_at notes.old t note }
{
    if t < notes.len() && notes[t] == 0 {
        notes[t] = note;
    }
}

// Notes `note` at every option from row `first` on that has no note yet.
fn note_options(rows: &[i32], first: usize, note: u16, owners: &mut [u16])
    ensures { (j : ℕ) → j < length owners.old → get_or owners.new j 0 ≡ first_note (among j (rows_of_options (content_at rows.now first).options)) note (get_or owners.old j 0) }
{
    let mut t = first;
    // kept: the next option's row is read from the row; no index is counted
    while t < rows.len() / 4 {
        if natural(rows, t, 0) != 42 {
            return;
        }
        note_at(owners, t, note);
        t = operand(rows, t, 2);
    }
}

// Notes at every row the ALT whose option it is: one more than its row, or 0.
// kept: a note is a number of 16 bits, as the prepared list has it (`run_code::Row`, fixed memory)
pub fn note_owners(rows: &[i32], owners: &mut [u16])
    requires { row_count rows.now ≤ 1024 }
    ensures { owners.new ≡ owner_notes rows.now (length owners.old) }
{
    owners.fill(0);
    for r in 0..rows.len() / 4 {
        if natural(rows, r, 0) == 34 {
            note_options(rows, operand(rows, r, 1), (r + 1) as u16, owners);
        }
    }
}
