// A row that came to work is noted: it waits at an element, or has a ready step, and wakes who waited for it.
#![tactic(auto)]

ghost use Rattle.std.specs.Prelude.{◌≡◌, List, ◌<◌, ◌≤◌, ℤ};
ghost use Rattle.meaning.specs.Tree.{content_at};
ghost use Rattle.run_values.specs.Cells.{state_cells};
ghost use Rattle.run_code.specs.Prepared.{Prepared};
ghost use Rattle.run_notes.specs.Notes.{wait_input, wake_option, wake_options, wake, wait_output, note_as, noted_of};
ghost use Rattle.run_noting.specs.Noting.{options_noted, alt_noted, row_noted};

use run_code::place;
use run_intents::{Does, does_at, option_does};
use run_notes::{Note, Notes, first_option};
use run_ready_bits::raise;
use run_values::store::State;

// Row r, by itself or for its option j, waits to input at element e.
fn wait_input(notes: &mut Notes, r: usize, j: usize, e: u16)
    requires { r < 1024 }
    ensures { notes.new ≡ wait_input r j e notes.old }
{
    let p = 2 * (e as usize % 256);
    notes.elements[p] = (r + 1) as u16;
    if notes.elements[p + 1] != 0 {
        raise(&mut notes.bits, j);
    }
}

// Option j is ready if it inputs from element e.
fn wake_option(notes: &mut Notes, j: usize, e: u16)
    requires { j < 1024 }
    ensures { notes.new ≡ wake_option e j notes.old }
{
    if notes.acts[3 * j] == 7 && notes.acts[3 * j + 1] == e {
        raise(&mut notes.bits, j);
    }
}

// The same of the options from link m on.
fn wake_options(code: &[u16; 6150], notes: &mut Notes, m: usize, e: u16)
    requires table { (rows : List ℤ) × Prepared rows code.now }
    requires inside { m ≤ 1024 }
    ensures { (rows : List ℤ) → Prepared rows code.now → notes.new ≡ wake_options e (content_at rows m).options notes.old }
{
    if place(code, m, 0) == 42 {
        wake_option(notes, m, e);
        wake_options(code, notes, place(code, m, 2) as usize, e);
    }
}

// Row i, which waits at element e to input, has a step now that someone outputs there.
fn wake(code: &[u16; 6150], notes: &mut Notes, i: usize, e: u16)
    requires table { (rows : List ℤ) × Prepared rows code.now }
    requires inside { i < 1024 }
    ensures { (rows : List ℤ) → Prepared rows code.now → notes.new ≡ wake rows e i notes.old }
{
    if notes.acts[3 * i] == 9 {
        wake_options(code, notes, first_option(code, i), e);
    } else {
        raise(&mut notes.bits, i);
    }
}

// Row r waits to output at element e, and wakes who waits there.
fn wait_output(code: &[u16; 6150], notes: &mut Notes, r: usize, e: u16)
    requires table { (rows : List ℤ) × Prepared rows code.now }
    requires inside { r < 1024 }
    ensures { (rows : List ℤ) → Prepared rows code.now → notes.new ≡ wait_output rows r e notes.old }
{
    let p = 2 * (e as usize % 256);
    notes.elements[p + 1] = (r + 1) as u16;
    let i = notes.elements[p] as usize;
    if i != 0 {
        wake(code, notes, (i - 1) % 1024, e);
    }
}

// The note of row j, row r itself or its option, is n.
fn note_as(code: &[u16; 6150], notes: &mut Notes, r: usize, j: usize, n: Note)
    requires table { (rows : List ℤ) × Prepared rows code.now }
    requires inside { (r < 1024) × (j < 1024) }
    ensures { (rows : List ℤ) → Prepared rows code.now → notes.new ≡ note_as rows r j n notes.old }
{
    notes.store(j, n);
    match n.what {
        0 => {}
        7 => wait_input(notes, r, j, n.at),
        8 => wait_output(code, notes, j, n.at),
        _ => raise(&mut notes.bits, j),
    }
}

// The options of ALT r from link m on are noted, and what the ALT would do is handed back; where one lacks a value, none is noted.
fn note_options(
    code: &[u16; 6150],
    state: &State,
    lines: usize,
    notes: &mut Notes,
    r: usize,
    m: usize,
) -> Note
    requires table { (rows : List ℤ) × Prepared rows code.now }
    requires inside { (r < 1024) × (m ≤ 1024) }
    ensures { (rows : List ℤ) → Prepared rows code.now → noted_of result notes.new ≡ options_noted lines (state_cells state.now) state.now.places rows r (content_at rows m).options notes.old }
{
    if place(code, m, 0) != 42 {
        return Note::from(Does::Selects);
    }
    let n = Note::from(option_does(code, state, lines, m));
    if n.what == 1 {
        return n;
    }
    let link = place(code, m, 2) as usize;
    let z = note_options(code, state, lines, notes, r, link);
    if z.what == 1 {
        return z;
    }
    note_as(code, notes, r, m, n);
    z
}

// ALT r is noted.
fn note_alt(code: &[u16; 6150], state: &State, lines: usize, notes: &mut Notes, r: usize)
    requires table { (rows : List ℤ) × Prepared rows code.now }
    requires inside { r < 1024 }
    ensures { (rows : List ℤ) → Prepared rows code.now → notes.new ≡ alt_noted lines (state_cells state.now) state.now.places rows r notes.old }
{
    let m = first_option(code, r);
    let n = note_options(code, state, lines, notes, r, m);
    notes.store(r, n);
    if n.what == 1 {
        raise(&mut notes.bits, r);
    }
}

// Row r, which came to work, is noted.
pub fn note_row(
    code: &[u16; 6150],
    state: &State,
    counts: &[u32; 8],
    lines: usize,
    notes: &mut Notes,
    r: usize,
)
    requires table { (rows : List ℤ) × Prepared rows code.now }
    requires inside { r < 1024 }
    ensures { (rows : List ℤ) → Prepared rows code.now → notes.new ≡ row_noted lines (state_cells state.now) state.now.places counts.now rows r notes.old }
{
    let n = Note::from(does_at(code, state, counts, lines, r));
    if n.what == 9 {
        note_alt(code, state, lines, notes, r);
    } else {
        note_as(code, notes, r, r, n);
    }
}
