// The lines of a text by what is expected where they stand. Refusal 12.
#![tactic(auto)]

ghost use Rattle.std.specs.Prelude.{◌≡◌, ◌≤◌, ◌<◌, length};
ghost use Rattle.read_levels.specs.Steps.{beneath_table, after_table, table_at, Numbered, ended_to, step_at};
ghost use Rattle.read_levels.specs.Listing.{listing};
ghost use Rattle.read_levels.specs.Outlines.{Room, OutlineRead};

pub mod expectations; // expectations.rt: what may be expected where a line stands

// What a line does: its kind, and what is expected beneath it and after it at its level.
#[derive(Clone, Copy)]
struct Step {
    kind: u8,
    beneath: u8,
    after: u8,
}

// The line may not stand there.
// kept: a byte of the two tables (the definition `beneath_table`), which `step_at` turns into none.
const NONE: u8 = 7;

// What is expected beneath a line, by number. A row for what is expected where it stands; in a row first no line, and then the line's class: a variable's
// declaration, another one; a process with nothing beneath it, an input; SEQ or PAR, IF, ALT, WHILE; a choice's boolean; a guard.
const BENEATH: [[u8; 11]; 7] = [
    [7, 3, 7, 3, 3, 0, 1, 2, 4, 7, 7], // 0 processes
    [7, 7, 7, 7, 7, 7, 7, 7, 7, 4, 7], // 1 choices
    [7, 7, 7, 7, 4, 7, 7, 7, 7, 7, 4], // 2 options
    [7, 7, 7, 7, 7, 7, 7, 7, 7, 7, 7], // 3 nothing
    [7, 3, 7, 3, 3, 0, 1, 2, 4, 7, 7], // 4 one process, which must come
    [7, 3, 7, 3, 3, 0, 1, 2, 4, 7, 7], // 5 one process, which must come, and then processes
    [7, 3, 3, 3, 3, 0, 1, 2, 4, 7, 7], // 6 declarations and then one process
];

// What is expected after a line at its level, in the same order.
const AFTER: [[u8; 11]; 7] = [
    [7, 5, 0, 0, 0, 0, 0, 0, 0, 0, 0], // 0 processes
    [7, 1, 1, 1, 1, 1, 1, 1, 1, 1, 1], // 1 choices
    [7, 2, 2, 2, 2, 2, 2, 2, 2, 2, 2], // 2 options
    [7, 3, 3, 3, 3, 3, 3, 3, 3, 3, 3], // 3 nothing
    [7, 4, 3, 3, 3, 3, 3, 3, 3, 3, 3], // 4 one process, which must come
    [7, 5, 0, 0, 0, 0, 0, 0, 0, 0, 0], // 5 one process, which must come, and then processes
    [7, 6, 6, 3, 3, 3, 3, 3, 3, 3, 3], // 6 declarations and then one process
];

// What is expected beneath a line.
fn beneath(expected: u8, class: u8) -> u8
    requires { (expected < 7) × (class < 11) }
    ensures { result ≡ table_at beneath_table expected class }
{
    let table = BENEATH;
    let row = table[expected as usize];
    row[class as usize]
}

// What is expected after a line.
fn after(expected: u8, class: u8) -> u8
    requires { (expected < 7) × (class < 11) }
    ensures { result ≡ table_at after_table expected class }
{
    let table = AFTER;
    let row = table[expected as usize];
    row[class as usize]
}

// Whether each level from a level to the deepest may end.
fn ended_to(stack: &[u8], depth: usize, low: usize) -> bool
    requires { depth ≤ length stack.now }
    ensures { result ≡ ended_to stack.now low depth }
{
    for d in low..depth {
        if expectations::ONE_PROCESS <= stack[d] {
            return false;
        }
    }
    true
}

// What a line of a class does at a level; none if it may not stand there.
fn step_at(stack: &[u8], depth: usize, level: usize, class: u8) -> Option<Step>
    requires { (depth ≤ length stack.now) × Numbered stack.now depth × (class < 11) }
    ensures { result ≡ step_at stack.now depth level class }
{
    if depth <= level || !ended_to(stack, depth, level + 1) {
        return None;
    }
    let expected = stack[level];
    let beneath = beneath(expected, class);
    if beneath == NONE {
        return None;
    }
    Some(Step {
        kind: 16 * expected + class,
        beneath,
        after: after(expected, class),
    })
}

// The lines of a text, listed. The stack is for what is expected at each level, the shallowest first.
// kept: the lists are lent apart, since there is no heap; the records `Room` and `OutlineRead` say all of them at once.
fn outline_with(
    text: &[u8],
    kinds: &mut [u8],
    levels: &mut [u16],
    ends: &mut [u16],
    sorts: &mut [u8],
    values: &mut [i32],
    stack: &mut [u8],
) -> Result<usize, u32>
    requires { Room (length text.now) levels.old (listing kinds.old ends.old sorts.old values.old) × (16386 ≤ length stack.old) }
    ensures { OutlineRead text.now result levels.new (listing kinds.new ends.new sorts.new values.new) }
{
    stack[0] = expectations::HEADS;
    let mut depth: usize = 1;
    let mut count: usize = 0;
    let mut first: usize = 0;
    let mut at: usize = 0;
    // kept: the place goes on by the bytes of a line, not by one
    while at < text.len() {
        let fault = (count + 1) as u32;
        let line = read_lines::list_line(text, at, first, sorts, values).ok_or(fault)?;
        let class = read_classes::class_of(&sorts[first..line.count]);
        let step = step_at(stack, depth, line.level, class).ok_or(fault)?;
        kinds[count] = step.kind;
        levels[count] = line.level as u16;
        ends[count] = line.count as u16;
        stack[line.level] = step.after;
        stack[line.level + 1] = step.beneath;
        depth = line.level + 2;
        count += 1;
        first = line.count;
        at = line.next;
    }
    if ended_to(stack, depth, 0) {
        Ok(count)
    } else {
        Err((count + 1) as u32)
    }
}

// The lines of a text, listed: of each its kind, its level and where its tokens end, and the tokens one after the other. How many lines they are, or the line
// at which the text is at fault.
pub fn outline(
    text: &[u8],
    kinds: &mut [u8],
    levels: &mut [u16],
    ends: &mut [u16],
    sorts: &mut [u8],
    values: &mut [i32],
) -> Result<usize, u32>
    requires { Room (length text.now) levels.old (listing kinds.old ends.old sorts.old values.old) }
    ensures { OutlineRead text.now result levels.new (listing kinds.new ends.new sorts.new values.new) }
{
    let mut stack = [0u8; 16386];
    outline_with(text, kinds, levels, ends, sorts, values, &mut stack)
}
