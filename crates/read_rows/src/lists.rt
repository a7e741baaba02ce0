// The rows of a line by what is expected where it stands.
ghost use Rattle.std.specs.Prelude.{◌≡◌, ◌+◌, ◌*◌, ◌/◌, ◌≤◌, ◌<◌, length};
ghost use Rattle.read_tokens.specs.Held.{tokens_resolved};
ghost use Rattle.read_expressions.specs.Overlay.{overlay};
ghost use Rattle.read_layout.specs.Layout.{listed_row};
ghost use Rattle.read_expressions.specs.Expressions.{Scratch, ScratchKept};
ghost use Rattle.read_rows.specs.LinesLaid.{Standable, laid_by};

use crate::Spot;
use read_classes::classes;

// Writes row n of a choice or an option, of which so many rows stand beneath it and after it.
fn write_listed(kind: u8, n: usize, beneath: usize, later: usize, rows: &mut [i32])
    requires { (n + beneath + later < 1024) × (4 * n + 4 ≤ length rows.old) }
    ensures { rows.new ≡ overlay rows.old (4 * n) (listed_row kind n beneath later) }
{
    let next = n + 1 + beneath;
    read_expressions::write_row(
        rows,
        n,
        kind as i32,
        read_parts::link_to(beneath, n + 1),
        read_parts::link_to(later, next),
        (next + later) as i32,
    );
}

// Writes a member: a process, or the block of one.
pub fn write_member(
    kind: u8,
    sorts: &[u8],
    values: &[i32],
    spot: Spot,
    marks: &mut [u8],
    stack: &mut [u16],
    rows: &mut [i32],
)
    requires { (kind / 16 ≡ 0) × Standable kind (tokens_resolved sorts.now values.now) spot rows.old × Scratch sorts.now values.now marks.old stack.old }
    ensures { ScratchKept marks.old stack.old marks.new stack.new × (rows.new ≡ laid_by kind (tokens_resolved sorts.now values.now) spot rows.old) }
{
    if kind % 16 == classes::VARIABLE_LINE {
        read_parts::write_block(sorts, values, spot.row + 1, rows);
        let rest = read_parts::link_to(spot.rest, spot.row + 1 + spot.later - spot.rest);
        read_expressions::write_row(rows, spot.row, 40, (spot.row + 1) as i32, rest, 0);
        return;
    }
    let end = read_parts::write_process(
        sorts,
        values,
        spot.row + 1,
        spot.beneath,
        marks,
        stack,
        rows,
    );
    let later = read_parts::link_to(spot.later, end + spot.beneath);
    read_expressions::write_row(rows, spot.row, 40, (spot.row + 1) as i32, later, 0);
}

// Writes a choice, with its boolean behind the rows after it.
pub fn write_choice(
    kind: u8,
    sorts: &[u8],
    values: &[i32],
    spot: Spot,
    marks: &mut [u8],
    stack: &mut [u16],
    rows: &mut [i32],
)
    requires { (kind / 16 ≡ 1) × Standable kind (tokens_resolved sorts.now values.now) spot rows.old × Scratch sorts.now values.now marks.old stack.old }
    ensures { ScratchKept marks.old stack.old marks.new stack.new × (rows.new ≡ laid_by kind (tokens_resolved sorts.now values.now) spot rows.old) }
{
    write_listed(41, spot.row, spot.beneath, spot.later, rows);
    let n = spot.row + 1 + spot.beneath + spot.later;
    read_expressions::write_phrase(sorts, values, n, marks, stack, rows);
}

// Writes an option, with its guard behind the rows after it.
pub fn write_option(
    kind: u8,
    sorts: &[u8],
    values: &[i32],
    spot: Spot,
    marks: &mut [u8],
    stack: &mut [u16],
    rows: &mut [i32],
)
    requires { (kind / 16 ≡ 2) × Standable kind (tokens_resolved sorts.now values.now) spot rows.old × Scratch sorts.now values.now marks.old stack.old }
    ensures { ScratchKept marks.old stack.old marks.new stack.new × (rows.new ≡ laid_by kind (tokens_resolved sorts.now values.now) spot rows.old) }
{
    write_listed(42, spot.row, spot.beneath, spot.later, rows);
    let n = spot.row + 1 + spot.beneath + spot.later;
    read_parts::write_guard(sorts, values, n, marks, stack, rows);
}

// Writes the process after the declarations; the declarations have no row here.
pub fn write_head(
    kind: u8,
    sorts: &[u8],
    values: &[i32],
    spot: Spot,
    marks: &mut [u8],
    stack: &mut [u16],
    rows: &mut [i32],
)
    requires { (kind / 16 ≡ 6) × Standable kind (tokens_resolved sorts.now values.now) spot rows.old × Scratch sorts.now values.now marks.old stack.old }
    ensures { ScratchKept marks.old stack.old marks.new stack.new × (rows.new ≡ laid_by kind (tokens_resolved sorts.now values.now) spot rows.old) }
{
    if kind % 16 <= classes::OTHER_DECLARATION {
        return;
    }
    read_parts::write_process(sorts, values, spot.row, spot.beneath, marks, stack, rows);
}

// Writes a process that must come, or the block of one.
pub fn write_single(
    kind: u8,
    sorts: &[u8],
    values: &[i32],
    spot: Spot,
    marks: &mut [u8],
    stack: &mut [u16],
    rows: &mut [i32],
)
    requires { (kind / 16 ≡ 0 → ⊥) × (kind / 16 ≡ 1 → ⊥) × (kind / 16 ≡ 2 → ⊥) × (kind / 16 ≡ 6 → ⊥) × Standable kind (tokens_resolved sorts.now values.now) spot rows.old × Scratch sorts.now values.now marks.old stack.old }
    ensures { ScratchKept marks.old stack.old marks.new stack.new × (rows.new ≡ laid_by kind (tokens_resolved sorts.now values.now) spot rows.old) }
{
    if kind % 16 == classes::VARIABLE_LINE {
        read_parts::write_block(sorts, values, spot.row, rows);
        return;
    }
    read_parts::write_process(sorts, values, spot.row, spot.beneath, marks, stack, rows);
}
