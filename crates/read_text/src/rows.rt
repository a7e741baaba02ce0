// The rows of a text that is not refused, written.
ghost use Rattle.std.specs.Prelude.{◌≡◌, ◌≤◌, length};
ghost use Rattle.read_text.specs.Reading.{cleared};
ghost use Rattle.read_processes.specs.Written.{lists_of, SomeReady};
ghost use Rattle.read_text.specs.Writing.{TextWritten};

use read_processes::Lines;

// The first 4,096 of lent numbers set to 0.
fn clear(rows: &mut [i32])
    requires { 4096 ≤ length rows.old }
    ensures { rows.new ≡ cleared rows.old }
{
    rows[..4096].fill(0);
}

// Writes the rows of a text whose names are resolved. Marks and stack are scratch.
fn write_with(
    lines: Lines<'_>,
    declared: usize,
    marks: &mut [u8],
    stack: &mut [u16],
    rows: &mut [i32],
)
    requires { SomeReady declared lines.count lines.levels.now (lists_of lines) × (4096 ≤ length rows.old) × (length lines.sorts.now ≤ length marks.old) × (length lines.sorts.now ≤ length stack.old) }
    ensures { TextWritten declared lines.entry.count lines.entry.levels.now (lists_of lines.entry) rows.old rows.new }
{
    clear(rows);
    read_declared::put_rows(
        lines.kinds,
        lines.count,
        lines.ends,
        lines.sorts,
        lines.values,
        rows,
    );
    read_processes::write_process(lines, declared, marks, stack, rows);
}

// The same with scratch for at most 4,096 tokens.
fn write_short(lines: Lines<'_>, declared: usize, rows: &mut [i32])
    requires { SomeReady declared lines.count lines.levels.now (lists_of lines) × (4096 ≤ length rows.old) × (length lines.sorts.now ≤ 4096) }
    ensures { TextWritten declared lines.entry.count lines.entry.levels.now (lists_of lines.entry) rows.old rows.new }
{
    let mut marks = [0u8; 4096];
    let mut stack = [0u16; 4096];
    write_with(lines, declared, &mut marks, &mut stack, rows);
}

// The same with scratch for any text.
fn write_long(lines: Lines<'_>, declared: usize, rows: &mut [i32])
    requires { SomeReady declared lines.count lines.levels.now (lists_of lines) × (4096 ≤ length rows.old) }
    ensures { TextWritten declared lines.entry.count lines.entry.levels.now (lists_of lines.entry) rows.old rows.new }
{
    let mut marks = [0u8; 32768];
    let mut stack = [0u16; 32768];
    write_with(lines, declared, &mut marks, &mut stack, rows);
}

// Writes the rows of a text whose names are resolved into lent rows of 4,096 numbers; unused ones hold 0.
pub fn write_rows(lines: Lines<'_>, declared: usize, rows: &mut [i32])
    requires { SomeReady declared lines.count lines.levels.now (lists_of lines) × (4096 ≤ length rows.old) }
    ensures { TextWritten declared lines.entry.count lines.entry.levels.now (lists_of lines.entry) rows.old rows.new }
{
    if lines.sorts.len() <= 4096 {
        write_short(lines, declared, rows);
        return;
    }
    write_long(lines, declared, rows);
}
