// The rows of a text's process, written line by line where they go.
#![tactic(auto)]

ghost use Rattle.std.specs.Prelude.{◌≡◌, ◌&&◌, ◌/◌, ◌%◌, ◌≤◌, ◌<◌, eqb, leb, length};
ghost use Rattle.read_processes.specs.Onwards.{part_rows_at, onward_of};
ghost use Rattle.read_processes.specs.Written.{lists_of, spot_at, SomePlaceable, StartsTold, SomePlaced, RowsLaid, SomeReady, RowsWritten};

use read_classes::classes;
use read_levels::expectations;
use read_rows::Spot;

// The lines of a text as they are listed: how many, the kind, the level and the end of the tokens of each, and the sorts and values of all tokens.
#[derive(Clone, Copy)]
pub struct Lines<'a> {
    pub count: usize,
    pub kinds: &'a [u8],
    pub levels: &'a [u16],
    pub ends: &'a [u16],
    pub sorts: &'a [u8],
    pub values: &'a [i32],
}

// Of each line the row where its form begins, and the rows beneath it, after it and of the members after it.
#[derive(Clone, Copy)]
pub struct Spots<'a> {
    pub starts: &'a [usize; 1024],
    pub beneath: &'a [usize; 1024],
    pub after: &'a [usize; 1024],
    pub rest: &'a [usize; 1024],
}

// Where the lines beneath a line go, and those after it at its level.
#[derive(Drop)]
pub struct Onward {
    pub beneath: usize,
    pub later: usize,
}

// The rows of a line's process among those that the line makes itself: the first member of a block has the row of a member before the block.
fn part_rows(expected: u8, own: usize) -> usize
    ensures { result ≡ part_rows_at expected own }
{
    if expected == expectations::ONE_MEMBER {
        own.saturating_sub(1)
    } else {
        own
    }
}

// Whether a line is a declaration before the process.
fn is_head(expected: u8, class: u8) -> bool
    ensures { result ≡ eqb expected 6 && leb class 2 }
{
    expected == expectations::HEADS && class <= classes::OTHER_DECLARATION
}

// Where the lines beneath a line go, and those after it at its level, by the rows that it makes itself, the row where its form goes and the rows beneath it.
fn next_places(kind: u8, own: usize, row: usize, beneath: usize) -> Onward
    requires { (own ≤ 1048576) × (row ≤ 1048576) × (beneath ≤ 1048576) }
    ensures { result ≡ onward_of (kind / 16) (kind % 16) own row beneath }
{
    let expected = kind / 16;
    let class = kind % 16;
    if expected == expectations::CHOICES || expected == expectations::OPTIONS {
        return Onward {
            beneath: row + 1,
            later: row + 1 + beneath,
        };
    }
    if is_head(expected, class) {
        return Onward {
            beneath: row,
            later: row,
        };
    }
    if class == classes::VARIABLE_LINE {
        if expected == expectations::MEMBERS {
            return Onward {
                beneath: row + 1,
                later: row + 2,
            };
        }
        return Onward {
            beneath: row,
            later: row + 1,
        };
    }
    let end = row + part_rows(expected, own);
    Onward {
        beneath: end,
        later: end + beneath,
    }
}

// The row where the form of each line begins, by the rows that it makes itself and the rows beneath it; the first goes after those that are declared.
fn place_lines(
    lines: Lines<'_>,
    owns: &[usize; 1024],
    beneath: &[usize; 1024],
    declared: usize,
    starts: &mut [usize; 1024],
)
    requires { SomePlaceable declared lines.kinds.now lines.count lines.levels.now owns.now beneath.now }
    ensures { StartsTold declared lines.entry.kinds.now lines.entry.count lines.entry.levels.now owns.now beneath.now starts.old starts.new }
{
    let mut places = [0usize; 1025];
    places[0] = declared;
    for line in 0..lines.count {
        let level = lines.levels[line] as usize;
        let row = places[level];
        let onward = next_places(lines.kinds[line], owns[line], row, beneath[line]);
        starts[line] = row;
        places[level + 1] = onward.beneath;
        places[level] = onward.later;
    }
}

impl Spots<'_> {
    // Where the form of a line goes.
    fn at(self, line: usize) -> Spot
        requires { line < 1024 }
        ensures { result ≡ spot_at self.entry.starts.now self.entry.beneath.now self.entry.after.now self.entry.rest.now line }
    {
        Spot {
            row: self.starts[line],
            beneath: self.beneath[line],
            later: self.after[line],
            rest: self.rest[line],
        }
    }
}

// Writes the rows of all lines, each where its form goes.
fn write_lines(
    lines: Lines<'_>,
    spots: Spots<'_>,
    marks: &mut [u8],
    stack: &mut [u16],
    rows: &mut [i32],
)
    requires { SomePlaced lines.count (lists_of lines) spots.starts.now spots.beneath.now spots.after.now spots.rest.now × (4096 ≤ length rows.old) × (length lines.sorts.now ≤ length marks.old) × (length lines.sorts.now ≤ length stack.old) }
    ensures { RowsLaid lines.entry.count (lists_of lines.entry) spots.entry.starts.now spots.entry.beneath.now spots.entry.after.now spots.entry.rest.now rows.old rows.new }
{
    let mut first: usize = 0;
    for line in 0..lines.count {
        let end = lines.ends[line] as usize;
        let spot = spots.at(line);
        read_rows::write_line(
            lines.kinds[line],
            &lines.sorts[first..end],
            &lines.values[first..end],
            spot,
            marks,
            stack,
            rows,
        );
        first = end;
    }
}

// Writes the rows of a text's process after those that it declares.
pub fn write_process(
    lines: Lines<'_>,
    declared: usize,
    marks: &mut [u8],
    stack: &mut [u16],
    rows: &mut [i32],
)
    requires { SomeReady declared lines.count lines.levels.now (lists_of lines) × (4096 ≤ length rows.old) × (length lines.sorts.now ≤ length marks.old) × (length lines.sorts.now ≤ length stack.old) }
    ensures { RowsWritten declared lines.entry.count lines.entry.levels.now (lists_of lines.entry) rows.old rows.new }
{
    let mut owns = [0usize; 1024];
    let mut beneath = [0usize; 1024];
    let mut after = [0usize; 1024];
    let mut rest = [0usize; 1024];
    let mut starts = [0usize; 1024];
    read_counts::own_rows(lines.kinds, lines.count, lines.ends, lines.sorts, &mut owns);
    read_sizes::measure(
        lines.kinds,
        lines.count,
        lines.levels,
        &owns,
        &mut beneath,
        &mut after,
        &mut rest,
    );
    place_lines(lines, &owns, &beneath, declared, &mut starts);
    let spots = Spots {
        starts: &starts,
        beneath: &beneath,
        after: &after,
        rest: &rest,
    };
    write_lines(lines, spots, marks, stack, rows);
}
