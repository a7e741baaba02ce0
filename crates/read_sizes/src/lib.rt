// How many rows stand beneath each line of a text and after it.
#![tactic(auto)]

ghost use Rattle.std.specs.Prelude.{◌≡◌, ◌+◌, ◌%◌, ◌≤◌, ◌<◌, eqb, get_or};
ghost use Rattle.meaning.specs.Basics.{if_else};
ghost use Rattle.grammar.specs.Classes.{variable-line};
ghost use Rattle.read_classes.specs.ClassNumbers.{number_of};
ghost use Rattle.read_sizes.specs.Sizes.{opened, SomeMeasured, Summed};

use read_classes::classes;

// The rows beneath a line and after it.
#[derive(Drop)]
struct Beside {
    beneath: usize,
    after: usize,
}

// Puts a line of a level, with the rows that it makes itself, before the lines after it, of which the rows are known that they leave open at each level.
fn open_line(left: &mut [usize; 1025], level: usize, own: usize) -> Beside
    requires { (level < 1024) × (own + get_or left.old (level + 1) 0 + get_or left.old level 0 ≤ 1024) }
    ensures { (result.beneath ≡ get_or left.old (level + 1) 0) × (result.after ≡ get_or left.old level 0) × (left.new ≡ opened left.old level own) }
{
    let beneath = left[level + 1];
    let after = left[level];
    left[level] = own + beneath + after;
    left[level + 1] = 0;
    Beside { beneath, after }
}

// The rows of the members after a line: those after the line itself, or after the process of the block that it declares.
fn rest_after(kind: u8, after: usize, last: usize) -> usize
    ensures { result ≡ if_else (eqb (kind % 16) (number_of variable-line)) last after }
{
    if kind % 16 == classes::VARIABLE_LINE {
        last
    } else {
        after
    }
}

// For each line: the rows beneath it, those after it at its level, and those of the members after it.
pub fn measure(
    kinds: &[u8],
    count: usize,
    levels: &[u16],
    owns: &[usize; 1024],
    beneath: &mut [usize; 1024],
    after: &mut [usize; 1024],
    rest: &mut [usize; 1024],
)
    requires { SomeMeasured kinds.now count levels.now owns.now }
    ensures { Summed kinds.now count levels.now owns.now beneath.old after.old rest.old beneath.new after.new rest.new }
{
    let mut left = [0usize; 1025];
    let mut last: usize = 0;
    for at in (0..count).rev() {
        let beside = open_line(&mut left, levels[at] as usize, owns[at]);
        last = rest_after(kinds[at], beside.after, last);
        beneath[at] = beside.beneath;
        after[at] = beside.after;
        rest[at] = last;
    }
}
