// The change of the step that a row orders, as a value, read from what is noted of rows; and what a run gives to the host.
#![tactic(auto)]

ghost use Rattle.std.specs.Prelude.{◌≡◌, List, ◌+◌, ◌<◌, ℤ, get_or};
ghost use Rattle.run_code.specs.Prepared.{Prepared, strip_at};
ghost use Rattle.run_changes.specs.Changes.{row_noted, row_becomes, communicated, option_change, own_change, change_in};

use run_code::place;
use run_notes::Notes;

// A change of data: none; a cell gets a number with its mark; a cell gets the next reading of a channel, whose place is
// raised; a number with its mark for a channel to the host, whose strip begins there.
// kept: number and mark apart, as the arrays of `Notes` and the host's buffers hold a message (fixed memory, C's buffers); `change_in` reads it so
#[derive(Clone, Copy)]
pub enum Data {
    Nothing,
    Cell(usize, i32, u8),
    Reading(usize, usize),
    Output(usize, usize, i32, u8),
}

// What a step of row `owner` does: row `at` gets state `next`, the row of the note `sender` (one more than its number, 0 is
// none) ends, and the data changes.
// kept: `sender` is the note that `Notes.elements` holds, 16 bits an element (fixed memory), handed on as it is
#[derive(Drop)]
pub struct Change {
    pub owner: usize,
    pub at: usize,
    pub next: u8,
    pub sender: u16,
    pub written: Data,
}

// Row `at` gets state `next`, and the data changes; no other row ends.
fn becomes(owner: usize, at: usize, next: u8, written: Data) -> Change
    ensures { result ≡ row_becomes owner at next written }
{
    Change {
        owner,
        at,
        next,
        sender: 0,
        written,
    }
}

// The row of a note, which is one more.
fn row_of(note: u32) -> usize
    ensures { result ≡ row_noted note }
{
    (note as usize + 1023) % 1024
}

// A communication on element e into a cell: the message of the row that waits there passes, and that row ends.
fn communicates(notes: &Notes, owner: usize, at: usize, next: u8, e: usize, cell: usize) -> Change
    ensures { result ≡ communicated notes.now.acts notes.now.sent notes.now.elements owner at next e cell }
{
    let sender = notes.elements[2 * (e % 256) + 1];
    let s = row_of(u32::from(sender));
    let x = notes.sent[s];
    let mark = notes.acts[3 * s + 2] % 256;
    Change {
        owner,
        at,
        next,
        sender,
        written: Data::Cell(cell, x, mark as u8),
    }
}

// What the step of an ALT with its option of row j does: the option's process starts. A closed option has none.
fn option_change(notes: &Notes, owner: usize, process: usize, j: usize) -> Change
    requires { j < 1024 }
    ensures { result ≡ option_change notes.now.acts notes.now.sent notes.now.elements owner process j }
{
    let at = notes.acts[3 * j + 1] as usize;
    let cell = notes.acts[3 * j + 2] as usize;
    match notes.acts[3 * j] {
        4 => becomes(owner, process, 1, Data::Nothing),
        5 => becomes(owner, process, 1, Data::Reading(cell, at)),
        7 => communicates(notes, owner, process, 1, at, cell),
        _ => becomes(owner, j, 0, Data::Nothing),
    }
}

// What the step of row j by itself does. A row that waits, outputs or looks at its options has none and stays as it is.
fn own_change(code: &[u16; 6150], notes: &Notes, j: usize) -> Change
    requires table { (rows : List ℤ) × Prepared rows code.now }
    requires row { j < 1024 }
    ensures { result ≡ own_change notes.now.acts notes.now.sent notes.now.elements (strip_at code.now j) j }
{
    let at = notes.acts[3 * j + 1] as usize;
    let cell = notes.acts[3 * j + 2] as usize;
    let x = notes.sent[j];
    match notes.acts[3 * j] {
        1 => becomes(j, j, 10 + (at % 64) as u8, Data::Nothing),
        2 => becomes(j, j, 2, Data::Cell(cell, x, 1)),
        3 => becomes(j, j, 2, Data::Nothing),
        4 => becomes(j, at, 1, Data::Nothing),
        5 => becomes(j, j, 2, Data::Reading(cell, at)),
        6 => {
            let d = place(code, j, 1) as usize;
            let strip = place(code, d, 5) as usize;
            becomes(j, j, 2, Data::Output(at, strip, x, (cell % 256) as u8))
        }
        7 => communicates(notes, j, j, 2, at, cell),
        _ => becomes(j, j, 1, Data::Nothing),
    }
}

// What the step that row j orders does: of an ALT with its option, where the row is one, else of the row by itself.
pub fn change_of(code: &[u16; 6150], notes: &Notes, j: usize) -> Change
    requires table { (rows : List ℤ) × Prepared rows code.now }
    requires row { j < 1024 }
    ensures { (rows : List ℤ) → Prepared rows code.now → result ≡ change_in rows notes.now.acts notes.now.sent notes.now.elements j }
{
    if place(code, j, 0) == 42 {
        let owner = row_of(place(code, j, 4));
        return option_change(notes, owner, place(code, j, 1) as usize, j);
    }
    own_change(code, notes, j)
}

// What a run gives to the host: the strips' numbers, how many numbers each channel has got, and the marks of the numbers.
#[derive(Drop)]
pub struct Outputs {
    pub numbers: [i32; 1024],
    pub counts: [u32; 8],
    pub marks: [u8; 1024],
}

impl Outputs {
    ghost use Rattle.run_changes.specs.Outputs.{no_outputs, number_put};

    // Nothing is given.
    pub fn new() -> Outputs
        ensures { result ≡ no_outputs }
    {
        Outputs {
            numbers: [0; 1024],
            counts: [0; 8],
            marks: [0; 1024],
        }
    }

    // One more message, its number and mark, for the p-th channel to the host, whose strip begins at `strip`.
    pub fn put(&mut self, p: usize, strip: usize, x: i32, mark: u8)
        requires { (p < 8) × (strip + get_or self.old.counts p 0 < 1024) }
        ensures { self.new ≡ number_put p strip x mark self.old }
    {
        let n = self.counts[p];
        let i = strip + n as usize;
        self.numbers[i] = x;
        self.marks[i] = mark;
        self.counts[p] = n + 1;
    }
}
