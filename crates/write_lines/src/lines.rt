// The lines of a printed text, at a place of a lent buffer: each function gives the place after its lines.
ghost use Rattle.std.specs.Prelude.{◌≡◌, [], ◌∷◌, ◌*◌, ◌≤◌, length, get_or};
ghost use Rattle.meaning.specs.Basics.{if_else};
ghost use Rattle.meaning.specs.Limits.{max_rows, max_cells, max_capacity};
ghost use Rattle.meaning.specs.Declarations.{declarations, has_role, channels};
ghost use Rattle.meaning.specs.Buffers.{cell_of, decoded, capacities};
ghost use Rattle.meaning.specs.Printing.{cell_lines, out_lines, stop_lines, outcome_line, value_bytes};
ghost use Rattle.base_numbers.specs.Printing.{text_of};
ghost use Rattle.write_bytes.specs.Writing.{put_all, put_lines};
ghost use Rattle.write_lines.specs.Decoding.{message_bytes, outputs_in};

use base_numbers::Text;
use meaning::Outcome;
use write_bytes::{put_line, slices};

// A message's number as text, nothing for an absence.
fn message_text(mark: u8, number: i32) -> Text
    ensures { result ≡ text_of (value_bytes (cell_of number mark)) }
{
    if mark == 0 {
        return Text {
            bytes: [0; 11],
            length: 0,
        };
    }
    base_numbers::printed(number)
}

// A line for each message of a row: of the cells of its variable, or of the host outputs of its channel.
fn put_messages(
    word: &[u8],
    row: u32,
    marks: &[u8],
    numbers: &[i32],
    out: &mut [u8],
    at: usize,
) -> usize
    requires { length numbers.now ≤ max_capacity }
    ensures { (result, out.new) ≡ put_all (message_bytes word.now row 0 (decoded numbers.now marks.now)) (at, out.old) }
{
    let mut place = at;
    for i in 0..numbers.len() {
        if marks.len() <= i {
            return place;
        }
        let text = message_text(marks[i], slices::number_at(numbers, i));
        place = put_line(word, row, i as u32, text, out, place);
    }
    place
}

// A line for each cell of each variable.
pub fn put_variables(rows: &[i32], marks: &[u8], values: &[i32], out: &mut [u8], at: usize) -> usize
    requires { (length rows.now ≤ 4 * max_rows) × (length values.now ≤ max_cells) }
    ensures { (result, out.new) ≡ put_lines (cell_lines rows.now (decoded values.now marks.now)) (at, out.old) }
{
    let count = base_rows::declarations(rows);
    let mut place = at;
    let mut first: usize = 0;
    for r in 0..count {
        let size = base_rows::cells_at(rows, count, r) as usize;
        let cells = slices::part(values, first, size);
        place = put_messages(
            b"var",
            r as u32,
            slices::part(marks, first, size),
            cells,
            out,
            place,
        );
        first += size;
    }
    place
}

// How many messages the strip of a row has: none unless the row is an output channel with a count.
fn strip_count(rows: &[i32], count: usize, r: usize, counts: &[u32], port: usize) -> usize
    requires { count ≡ declarations rows.now }
    ensures { result ≡ if_else (has_role 2 rows.now r) (get_or counts.now port 0) 0 }
{
    if base_rows::has_role(2, rows, count, r) {
        if port < counts.len() {
            return counts[port] as usize;
        }
    }
    0
}

// A line for each message of each output channel.
pub fn put_outputs(
    rows: &[i32],
    counts: &[u32],
    numbers: &[i32],
    marks: &[u8],
    out: &mut [u8],
    at: usize,
) -> usize
    requires { (length rows.now ≤ 4 * max_rows) × (length numbers.now ≤ max_capacity) }
    ensures { (result, out.new) ≡ put_lines (out_lines (channels rows.now 2) (outputs_in (capacities rows.now) counts.now (decoded numbers.now marks.now))) (at, out.old) }
{
    let count = base_rows::declarations(rows);
    let mut place = at;
    let mut first: usize = 0;
    let mut port: usize = 0;
    for r in 0..count {
        let given = strip_count(rows, count, r, counts, port);
        let strip = slices::part(numbers, first, given);
        place = put_messages(
            b"out",
            r as u32,
            slices::part(marks, first, given),
            strip,
            out,
            place,
        );
        first += base_rows::capacity_at(rows, count, r) as usize;
        port += base_rows::host_channels_at(2, rows, count, r) as usize;
    }
    place
}

// The line of a row that is stopped.
fn put_stop(row: u32, state: u8, out: &mut [u8], at: usize) -> usize
    ensures { (result, out.new) ≡ put_lines (stop_lines row (state ∷ [])) (at, out.old) }
{
    if state < 10 {
        return at;
    }
    put_line(
        b"stop",
        row,
        0,
        base_numbers::decimal((state - 10) as u32),
        out,
        at,
    )
}

// A line for each row that is stopped.
pub fn put_stops(states: &[u8], out: &mut [u8], at: usize) -> usize
    requires { length states.now ≤ max_rows }
    ensures { (result, out.new) ≡ put_lines (stop_lines 0 states.now) (at, out.old) }
{
    let mut place = at;
    for i in 0..states.len() {
        place = put_stop(i as u32, states[i], out, place);
    }
    place
}

// The line of an outcome and its steps.
pub fn put_answer(outcome: Outcome, steps: u32, out: &mut [u8], at: usize) -> usize
    ensures { (result, out.new) ≡ put_lines (outcome_line outcome steps ∷ []) (at, out.old) }
{
    let value = base_numbers::decimal(steps);
    match outcome {
        Outcome::Ended => put_line(b"ended", 0, 0, value, out, at),
        Outcome::Stuck => put_line(b"stuck", 0, 0, value, out, at),
        Outcome::Broken => put_line(b"broken", 0, 0, value, out, at),
        Outcome::Spent => put_line(b"spent", 0, 0, value, out, at),
    }
}
