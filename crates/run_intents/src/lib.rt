// What a running row would do, and what an option would do, from the prepared list, the cells and the places in the readings.
#![tactic(auto)]

ghost use Rattle.std.specs.Prelude.{◌≡◌, List, ◌≤◌, ℤ, ltb};
ghost use Rattle.meaning.specs.Tree.{content_at, action_of};
ghost use Rattle.meaning.specs.State.{program, process_at};
ghost use Rattle.run_code.specs.Prepared.{Prepared, place_at};
ghost use Rattle.run_values.specs.Cells.{state_cells};
ghost use Rattle.run_values.specs.Sending.{sent_in};
ghost use Rattle.run_intents.specs.Does.{assignment, tested, received, handed_on, sent, choices_do, input_does, guarded_does, option_does, does_of};
ghost use Rattle.run_intents.specs.Rows.{input_at, output_at, option_at};

use meaning::{Index, Value};
use run_code::place;
use run_values::store::State;
use run_values::{assigned, eval, index, passed, target};

// What a row would do: nothing; stop for a reason; assign a value to a cell; end; start another row; read from a host
// channel into a cell; write a message, a number or none for the absence, to a host channel; input from an element into a
// cell; output a message to an element; look at its options.
#[derive(Clone, Copy)]
pub enum Does {
    Waits,
    Stops(u8),
    Assigns(usize, i32),
    Ends,
    Starts(usize),
    Reads(usize, usize),
    Writes(usize, Option<i32>),
    InputsFrom(usize, usize),
    OutputsTo(usize, Option<i32>),
    Selects,
}

// An assignment, from what its subscript and its expression come to: "subscript before expression".
fn assignment(t: Index, v: Value) -> Does
    ensures { result ≡ assignment t v }
{
    match t {
        Index::Fails(k) => Does::Stops(k),
        Index::At(cell) => match v {
            Value::Missing(k) => Does::Stops(k),
            Value::Number(x) => Does::Assigns(cell, x),
        },
    }
}

// A WHILE, from its test: "false ends it, otherwise its body starts".
fn tested(body: usize, v: Value) -> Does
    ensures { result ≡ tested body v }
{
    match v {
        Value::Missing(k) => Does::Stops(k),
        Value::Number(x) => {
            if base_numbers::is_true(x) {
                return Does::Starts(body);
            }
            Does::Ends
        }
    }
}

// Is a reading left at a place.
fn is_left(place: u32, lines: usize) -> bool
    ensures { result ≡ ltb place lines }
{
    (place as usize) < lines
}

// An input, from what its subscripts come to: "channel subscript, then target subscript"; from the host "if values are left".
fn received(state: &State, lines: usize, channel: u32, element: Index, t: Index) -> Does
    requires { channel ≤ 8 }
    ensures { result ≡ received state.now.places lines channel element t }
{
    match element {
        Index::Fails(k) => Does::Stops(k),
        Index::At(e) => match t {
            Index::Fails(k) => Does::Stops(k),
            Index::At(cell) => {
                if channel == 0 {
                    return Does::InputsFrom(e, cell);
                }
                let p = channel as usize - 1;
                if is_left(state.places[p], lines) {
                    return Does::Reads(cell, p);
                }
                Does::Waits
            }
        },
    }
}

// The output of message m to element e; to the host only "if capacity is left".
fn handed_on(counts: &[u32; 8], channel: u32, capacity: u32, e: usize, m: Option<i32>) -> Does
    requires { channel ≤ 8 }
    ensures { result ≡ handed_on counts.now channel capacity e m }
{
    if channel == 0 {
        return Does::OutputsTo(e, m);
    }
    let p = channel as usize - 1;
    if counts[p] < capacity {
        return Does::Writes(p, m);
    }
    Does::Waits
}

// An output, from what its subscript and its expression come to.
fn sent(
    counts: &[u32; 8],
    channel: u32,
    capacity: u32,
    element: Index,
    v: Result<Option<i32>, u8>,
) -> Does
    requires { channel ≤ 8 }
    ensures { result ≡ sent counts.now channel capacity element (sent_in v) }
{
    match element {
        Index::Fails(k) => Does::Stops(k),
        Index::At(e) => match v {
            Err(k) => Does::Stops(k),
            Ok(m) => handed_on(counts, channel, capacity, e, m),
        },
    }
}

// The input of row r.
fn input_does(code: &[u16; 6150], state: &State, lines: usize, r: usize) -> Does
    requires table { (rows : List ℤ) × Prepared rows code.now }
    requires row { (r ≤ 1024) × (place_at code.now r 0 ≡ 23) }
    ensures { (rows : List ℤ) → Prepared rows code.now → result ≡ input_does lines (state_cells state.now) state.now.places (input_at rows r) }
{
    let e = index(code, state, r);
    let t = target(code, state, place(code, r, 3) as usize);
    let d = place(code, r, 1) as usize;
    received(state, lines, place(code, d, 3), e, t)
}

// The output of row r.
fn output_does(code: &[u16; 6150], state: &State, counts: &[u32; 8], r: usize) -> Does
    requires table { (rows : List ℤ) × Prepared rows code.now }
    requires row { (r ≤ 1024) × (place_at code.now r 0 ≡ 24) }
    ensures { (rows : List ℤ) → Prepared rows code.now → result ≡ output_at rows (state_cells state.now) counts.now r }
{
    let e = index(code, state, r);
    let v = passed(code, state, place(code, r, 3) as usize);
    let d = place(code, r, 1) as usize;
    sent(counts, place(code, d, 3), place(code, d, 4), e, v)
}

// The choices from row m on: the first true one in order starts, and none after it is looked at.
fn choices_do(code: &[u16; 6150], state: &State, m: usize) -> Does
    requires table { (rows : List ℤ) × Prepared rows code.now }
    requires inside { m ≤ 1024 }
    ensures { (rows : List ℤ) → Prepared rows code.now → result ≡ choices_do (state_cells state.now) (content_at rows m).tests }
{
    if place(code, m, 0) != 41 {
        return Does::Waits;
    }
    let v = eval(code, state, place(code, m, 3) as usize);
    match v {
        Value::Missing(k) => Does::Stops(k),
        Value::Number(x) => {
            if base_numbers::is_true(x) {
                return Does::Starts(place(code, m, 1) as usize);
            }
            choices_do(code, state, place(code, m, 2) as usize)
        }
    }
}

// What row r would do, as a running row.
pub fn does_at(code: &[u16; 6150], state: &State, counts: &[u32; 8], lines: usize, r: usize) -> Does
    requires table { (rows : List ℤ) × Prepared rows code.now }
    requires inside { r ≤ 1024 }
    ensures { (rows : List ℤ) → Prepared rows code.now → result ≡ does_of lines (state_cells state.now) state.now.places counts.now (action_of (process_at (program rows) r)) }
{
    match place(code, r, 0) {
        46 | 48 => assignment(
            assigned(code, state, r),
            eval(code, state, place(code, r, 3) as usize),
        ),
        47 => Does::Stops(2),
        23 => input_does(code, state, lines, r),
        24 => output_does(code, state, counts, r),
        32 => choices_do(code, state, place(code, r, 1) as usize),
        33 => tested(
            place(code, r, 2) as usize,
            eval(code, state, place(code, r, 1) as usize),
        ),
        34 => Does::Selects,
        _ => Does::Waits,
    }
}

// What an option would do whose guard is row g and whose process is row `process`, where the guard has no boolean.
fn guarded(code: &[u16; 6150], state: &State, lines: usize, g: usize, process: usize) -> Does
    requires table { (rows : List ℤ) × Prepared rows code.now }
    requires bare { (g ≤ 1024) × (place_at code.now g 0 ≡ 43 → ⊥) }
    ensures { (rows : List ℤ) → Prepared rows code.now → result ≡ guarded_does lines (state_cells state.now) state.now.places process (content_at rows g).guard }
{
    match place(code, g, 0) {
        21 => Does::Starts(process),
        23 => input_does(code, state, lines, g),
        _ => Does::Waits,
    }
}

// What the option of row j would do: "boolean first; if false the rest of that option isn't looked at".
pub fn option_does(code: &[u16; 6150], state: &State, lines: usize, j: usize) -> Does
    requires table { (rows : List ℤ) × Prepared rows code.now }
    requires row { (j ≤ 1024) × (place_at code.now j 0 ≡ 42) }
    ensures { (rows : List ℤ) → Prepared rows code.now → result ≡ option_does lines (state_cells state.now) state.now.places (option_at rows j) }
{
    let g = place(code, j, 3) as usize;
    let process = place(code, j, 1) as usize;
    if place(code, g, 0) != 43 {
        return guarded(code, state, lines, g, process);
    }
    let v = eval(code, state, place(code, g, 1) as usize);
    match v {
        Value::Missing(k) => Does::Stops(k),
        Value::Number(x) => {
            if base_numbers::is_true(x) {
                return guarded(code, state, lines, place(code, g, 2) as usize, process);
            }
            Does::Waits
        }
    }
}
