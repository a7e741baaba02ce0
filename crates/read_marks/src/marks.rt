// Which operands of an expression are followed by an operator.
ghost use Rattle.std.specs.Prelude.{◌≡◌, true, ◌≤◌, ◌<◌, length, get_or};
ghost use Rattle.read_marks.specs.Roles.{role_of};
ghost use Rattle.read_marks.specs.Marks.{PhraseSorts, Marked, starts_after, marks_after};

use crate::roles;

// Notes token k: as the first of an operand, where one is wanted; an operator marks the operand that has been read.
fn note(sort: u8, had: bool, depth: usize, k: usize, starts: &mut [u16], marks: &mut [u8])
    requires { (depth < length starts.old) × (k < length marks.old) × (k < 32768) × (had ≡ true → get_or starts.old depth 0 < length marks.old) }
    ensures { (starts.new ≡ starts_after had k depth starts.old) × (marks.new ≡ marks_after had (role_of sort) k depth starts.old marks.old) }
{
    marks[k] = 0;
    if !had {
        starts[depth] = k as u16;
    } else if roles::is_between(sort) {
        marks[starts[depth] as usize] = 1;
    }
}

// Marks each token of an expression that begins an operand which an operator follows, and no other. The starts are scratch, and so are the marks past the tokens.
pub fn mark(sorts: &[u8], starts: &mut [u16], marks: &mut [u8])
    requires { PhraseSorts sorts.now × (length sorts.now ≤ 32768) × (length sorts.now ≤ length starts.old) × (length sorts.now ≤ length marks.old) }
    ensures { (length starts.new ≡ length starts.old) × (length marks.new ≡ length marks.old) × Marked sorts.now marks.new }
{
    let mut had = false;
    let mut depth: usize = 0;
    for (k, sort) in sorts.iter().enumerate() {
        note(*sort, had, depth, k, starts, marks);
        had = roles::had_after(*sort);
        depth = roles::depth_after(*sort, depth);
    }
}
