// What the machine notes of rows at work: what each would do, who waits at each element, and which rows have a ready step. A note is stored, and taken off.
#![tactic(auto)]

ghost use Rattle.std.specs.Prelude.{◌≡◌, List, ℕ, ◌<◌, ◌≤◌, ℤ};
ghost use Rattle.meaning.specs.Tree.{content_at};
ghost use Rattle.run_code.specs.Prepared.{Prepared};
ghost use Rattle.run_notes.specs.Notes.{note, short, output_note, note_numbers, options_at};

use run_code::place;
use run_intents::Does;
use run_ready_bits::{clear, lower};

// What a row would do, as numbers: what it is; a row, channel, element or reason; third a cell, or of an output the mark of
// its message; and a number with its sign.
// kept: `what` is a number, since `Notes.acts` holds numbers (`note_numbers`); the enum is `Does`
#[derive(Clone, Copy)]
pub struct Note {
    pub what: u16,
    pub at: u16,
    pub third: u16,
    pub number: i32,
}

// A note of these numbers.
fn note_with(what: u16, at: u16, third: u16, number: i32) -> Note
    ensures { result ≡ note what at third number }
{
    Note {
        what,
        at,
        third,
        number,
    }
}

// A number cut to sixteen bits.
// kept: `as` alone would have to lose nothing
fn short(n: usize) -> u16
    ensures { result ≡ short n }
{
    (n % 65536) as u16
}

// The note of an output of message m: its mark and its number.
fn output_note(what: u16, at: usize, m: Option<i32>) -> Note
    ensures { result ≡ output_note what at m }
{
    match m {
        Some(x) => note_with(what, short(at), 1, x),
        None => note_with(what, short(at), 0, 0),
    }
}

impl From<Does> for Note {
    ghost from_gives = { λ d n. n ≡ note_numbers d };

    // What a row would do, as numbers.
    fn from(d: Does) -> Note {
        match d {
            Does::Waits => note_with(0, 0, 0, 0),
            Does::Stops(k) => note_with(1, k as u16, 0, 0),
            Does::Assigns(a, x) => note_with(2, 0, short(a), x),
            Does::Ends => note_with(3, 0, 0, 0),
            Does::Starts(q) => note_with(4, short(q), 0, 0),
            Does::Reads(a, p) => note_with(5, short(p), short(a), 0),
            Does::Writes(p, m) => output_note(6, p, m),
            Does::InputsFrom(e, a) => note_with(7, short(e), short(a), 0),
            Does::OutputsTo(e, m) => output_note(8, e, m),
            Does::Selects => note_with(9, 0, 0, 0),
        }
    }
}

// The link of the first option of row r; 1,024 where it is no ALT.
pub fn first_option(code: &[u16; 6150], r: usize) -> usize
    requires table { (rows : List ℤ) × Prepared rows code.now }
    requires inside { r ≤ 1024 }
    ensures inside { result ≤ 1024 }
    ensures options { (rows : List ℤ) → Prepared rows code.now → (content_at rows result).options ≡ options_at rows r }
{
    if place(code, r, 0) == 34 {
        return place(code, r, 1) as usize;
    }
    1024
}

// What is noted of rows at work: three numbers of each row's note, and the number that it hands over; of each channel element
// who waits there to input and who to output (a row and 1, or 0); and the rows that have a ready step, as bits.
// kept: `acts` and `sent` are numbers and no `[Note; 1024]`, since the definitions read them so (`what_of`, `noted_by`)
#[derive(Drop)]
pub struct Notes {
    pub acts: [u16; 3072],
    pub sent: [i32; 1024],
    pub elements: [u16; 512],
    pub bits: [u64; 33],
}

impl Notes {
    ghost use Rattle.run_notes.specs.Notes.{no_notes, stored, leave_element, leave_note, leave_options, leave_offers, leave_row};

    // Nothing is noted: every row waits nowhere.
    pub fn new() -> Notes
        ensures { result ≡ no_notes }
    {
        Notes {
            acts: [0; 3072],
            sent: [0; 1024],
            elements: [0; 512],
            bits: clear(),
        }
    }

    // The note of row r becomes n.
    pub fn store(&mut self, r: usize, n: Note)
        requires { r < 1024 }
        ensures { self.new ≡ stored r n self.old }
    {
        self.acts[3 * r] = n.what;
        self.acts[3 * r + 1] = n.at;
        self.acts[3 * r + 2] = n.third;
        self.sent[r] = n.number;
    }

    // Row j no longer waits at an element.
    fn leave_element(&mut self, j: usize)
        requires { j < 1024 }
        ensures { self.new ≡ leave_element j self.old }
    {
        let p = 2 * (self.acts[3 * j + 1] as usize % 256);
        match self.acts[3 * j] {
            7 => self.elements[p] = 0,
            8 => self.elements[p + 1] = 0,
            _ => {}
        }
    }

    // The note of row j is taken off.
    fn leave_note(&mut self, j: usize)
        requires { j < 1024 }
        ensures { self.new ≡ leave_note j self.old }
    {
        self.leave_element(j);
        lower(&mut self.bits, j);
        self.store(j, Note::from(Does::Waits));
    }

    // The same of the options from link m on.
    fn leave_options(&mut self, code: &[u16; 6150], m: usize)
        requires table { (rows : List ℤ) × Prepared rows code.now }
        requires inside { m ≤ 1024 }
        ensures { (rows : List ℤ) → Prepared rows code.now → self.new ≡ leave_options (content_at rows m).options self.old }
    {
        if place(code, m, 0) == 42 {
            self.leave_note(m);
            self.leave_options(code, place(code, m, 2) as usize);
        }
    }

    // The same of the options of row r, if it looks at them.
    fn leave_offers(&mut self, code: &[u16; 6150], r: usize)
        requires table { (rows : List ℤ) × Prepared rows code.now }
        requires inside { r < 1024 }
        ensures { (rows : List ℤ) → Prepared rows code.now → self.new ≡ leave_offers rows r self.old }
    {
        if self.acts[3 * r] == 9 {
            self.leave_options(code, first_option(code, r));
        }
    }

    // The notes of row r and of its options are taken off.
    pub fn leave(&mut self, code: &[u16; 6150], r: usize)
        requires table { (rows : List ℤ) × Prepared rows code.now }
        requires inside { r < 1024 }
        ensures { (rows : List ℤ) → Prepared rows code.now → self.new ≡ leave_row rows r self.old }
    {
        self.leave_offers(code, r);
        self.leave_note(r);
    }
}
