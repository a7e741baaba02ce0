// The strip of an output channel: its part of the lent output numbers, and of their marks.
#![tactic(auto)]

ghost use Rattle.std.specs.Prelude.{◌≡◌, ◌&&◌, ◌+◌, ◌≤◌, min, get_or, take, drop, eqb};
ghost use Rattle.meaning.specs.Buffers.{capacities};
ghost use Rattle.machine.specs.Held.{strip_start};
ghost use Rattle.write_strips.specs.Spans.{span_of, held_span};

// Where a strip begins, and its capacity.
#[derive(Drop)]
pub struct Span {
    pub start: usize,
    pub size: usize,
}

// The sum of two numbers of which the first is within a limit, no more than the limit.
fn sum_at_most(start: usize, size: usize, limit: usize) -> usize
    requires { start ≤ limit }
    ensures { result ≡ min (start + size) limit }
{
    start + size.min(limit - start)
}

// Whether a row with so many output channels has the one that is looked for.
fn found_here(here: u32, port: usize, channel: usize) -> bool
    ensures { result ≡ (eqb here 1 && eqb port channel) }
{
    here == 1 && port == channel
}

// The strip of an output channel in row order, from its declaration on: its begin and its capacity, no more than a limit.
pub fn span_of(rows: &[i32], channel: usize, limit: usize) -> Span
    ensures { result ≡ span_of rows.now channel limit }
{
    let d = base_rows::declarations(rows);
    let mut start: usize = 0;
    let mut port: usize = 0;
    for r in 0..d {
        let here = base_rows::host_channels_at(2, rows, d, r);
        let size = (base_rows::capacity_at(rows, d, r) as usize).min(limit);
        if found_here(here, port, channel) {
            return Span { start, size };
        }
        start = sum_at_most(start, size, limit);
        port += here as usize;
    }
    Span { start, size: 0 }
}

// The part of a strip that a list of so many holds: its begin and its size.
fn held_span(rows: &[i32], channel: usize, limit: usize) -> Span
    ensures { result ≡ held_span rows.now channel limit }
{
    let span = span_of(rows, channel, limit);
    let start = span.start;
    let end = sum_at_most(start, span.size, limit);
    Span {
        start,
        size: end - start,
    }
}

// The strip of an output channel, as a part of a list of the lent output numbers' length: as much of it as the list holds.
fn strip_of<'a, T>(rows: &'a [i32], list: &'a [T], channel: usize) -> &'a [T]
    ensures { result.now ≡ take (get_or (capacities rows.now) channel 0) (drop (strip_start rows.now channel) list.now) }
{
    let limit = list.len();
    let held = held_span(rows, channel, limit);
    let start = held.start;
    let end = start + held.size;
    &list[start..end]
}

// The strip of an output channel, as a part of the lent output numbers: as much of it as they hold.
pub fn strip<'a>(rows: &'a [i32], numbers: &'a [i32], channel: usize) -> &'a [i32]
    ensures { result.now ≡ take (get_or (capacities rows.now) channel 0) (drop (strip_start rows.now channel) numbers.now) }
{
    strip_of(rows, numbers, channel)
}

// The marks of that strip, as a part of the lent output marks.
pub fn strip_marks<'a>(rows: &'a [i32], output_marks: &'a [u8], channel: usize) -> &'a [u8]
    ensures { result.now ≡ take (get_or (capacities rows.now) channel 0) (drop (strip_start rows.now channel) output_marks.now) }
{
    strip_of(rows, output_marks, channel)
}
