// The run's state, which is the cell store too: the number of each cell, its set mark, and the places in the readings.
ghost use Rattle.std.specs.Prelude.{◌≡◌, ◌+◌, ◌≤◌, get_or};
ghost use Rattle.std.proofs.Math.Option.{none, some};
ghost use Rattle.std.proofs.Math.ListN as lists;
ghost use Rattle.meaning.specs.Values.{cell_value, read_cell, given_value};
ghost use Rattle.run_values.specs.Cells.{state_cells, with_cell, with_unset, unset_state};

use meaning::{Index, Value};

// An unset cell has mark 0 and holds 0; a set one has mark 1. The place of a channel from the host is how many readings it has given.
// kept: numbers and marks as two arrays, since a run hands them to the C buffers as they are (`run_rows`, `Buffers.encode`).
#[derive(Drop)]
pub struct State {
    pub values: [i32; 256],
    pub marks: [u8; 256],
    pub places: [u32; 8],
}

// All cells are unset, and nothing has been read.
pub fn fresh() -> State
    ensures stored { result ≡ unset_state }
    ensures cells { state_cells result ≡ lists.replicate 256 none }
{
    let values = [0i32; 256];
    let marks = [0u8; 256];
    let places = [0u32; 8];
    State {
        values,
        marks,
        places,
    }
}

impl State {
    // What cell i gives: its number if it is set, else reason 1.
    pub fn cell(&self, i: usize) -> Value
        ensures { result ≡ cell_value (get_or (state_cells self.now) i none) }
    {
        if 256 <= i || self.marks[i] == 0 {
            return Value::Missing(1);
        }
        Value::Number(self.values[i])
    }

    // What the cell gives that a name and a subscript mean.
    pub fn cell_at(&self, i: Index) -> Value
        ensures { result ≡ read_cell (state_cells self.now) i }
    {
        match i {
            Index::At(n) => self.cell(n),
            Index::Fails(k) => Value::Missing(k),
        }
    }

    // What GIVEN tells of the cell that a name and a subscript mean: 1 where it is set, 0 where it is not.
    pub fn given(&self, i: Index) -> Value
        ensures { result ≡ given_value (state_cells self.now) i }
    {
        match i {
            Index::At(n) => match self.cell(n) {
                Value::Number(_x) => Value::Number(1),
                Value::Missing(_k) => Value::Number(0),
            },
            Index::Fails(k) => Value::Missing(k),
        }
    }

    // kept: `set`, `unset` and `unset_range` by value, since document 01 names a cell store with methods by value (docs/CHECKLIST.md, 90).

    // The state with cell i set to x; past the last cell there is nothing to set.
    pub fn set(mut self, i: usize, x: i32) -> State
        ensures stored { result ≡ with_cell self i (some x) }
        ensures cells { state_cells result ≡ lists.set (state_cells self) i (some x) }
    {
        if i < 256 {
            self.values[i] = x;
            self.marks[i] = 1;
        }
        self
    }

    // The state with cell i unset.
    pub fn unset(mut self, i: usize) -> State
        ensures stored { result ≡ with_cell self i none }
        ensures cells { state_cells result ≡ lists.set (state_cells self) i none }
    {
        if 256 > i {
            self.values[i] = 0;
            self.marks[i] = 0;
        }
        self
    }

    // The state with n cells from a on unset.
    pub fn unset_range(mut self, a: usize, n: usize) -> State
        requires { a + n ≤ 256 }
        ensures { result ≡ with_unset a n self }
    {
        self.values[a..a + n].fill(0);
        self.marks[a..a + n].fill(0);
        self
    }
}
