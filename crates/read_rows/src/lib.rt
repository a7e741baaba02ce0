// The rows that one line of a text writes, where its form goes.
#![tactic(auto)]

ghost use Rattle.std.specs.Prelude.{◌≡◌, ◌/◌};
ghost use Rattle.read_tokens.specs.Held.{tokens_resolved};
ghost use Rattle.read_expressions.specs.Expressions.{Scratch, ScratchKept};
ghost use Rattle.read_rows.specs.LinesLaid.{Standable, laid_by};

mod lists; // lists.rt: the rows of a line by what is expected where it stands

use read_levels::expectations;

// Where the form of a line goes, and the rows beneath it, after it at its level, and of the members after it.
#[derive(Drop)]
pub struct Spot {
    pub row: usize,
    pub beneath: usize,
    pub later: usize,
    pub rest: usize,
}

// Writes the rows of a line, from its kind and its tokens. Marks and stack are scratch.
pub fn write_line(
    kind: u8,
    sorts: &[u8],
    values: &[i32],
    spot: Spot,
    marks: &mut [u8],
    stack: &mut [u16],
    rows: &mut [i32],
)
    requires { Standable kind (tokens_resolved sorts.now values.now) spot rows.old × Scratch sorts.now values.now marks.old stack.old }
    ensures { ScratchKept marks.old stack.old marks.new stack.new × (rows.new ≡ laid_by kind (tokens_resolved sorts.now values.now) spot rows.old) }
{
    let expected = kind / 16;
    match expected {
        expectations::MEMBERS => lists::write_member(kind, sorts, values, spot, marks, stack, rows),
        expectations::CHOICES => lists::write_choice(kind, sorts, values, spot, marks, stack, rows),
        expectations::OPTIONS => lists::write_option(kind, sorts, values, spot, marks, stack, rows),
        expectations::HEADS => lists::write_head(kind, sorts, values, spot, marks, stack, rows),
        _ => lists::write_single(kind, sorts, values, spot, marks, stack, rows),
    }
}
