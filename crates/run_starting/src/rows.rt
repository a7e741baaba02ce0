// Rows in a list with room for 2,048.
ghost use Rattle.std.specs.Prelude.{◌≡◌, ◌∷◌, ◌<◌, ◌≤◌, replicate, take};
ghost use Rattle.machine.specs.Counts.{list_after};

// The first `count` rows are listed, as far as there is room.
// kept: a count beside an array, for there is no heap; what is read is a slice (`rows`)
#[derive(Drop)]
pub struct RowList {
    pub count: u16,
    pub rows: [u16; 2048],
}

impl RowList {
    ghost use Rattle.run_starting.specs.Rows.{numbers_of};

    // No row is listed.
    pub fn new() -> RowList
        ensures count { result.count ≡ 0 }
        ensures rows { result.rows ≡ replicate 2048 0 }
    {
        RowList {
            count: 0,
            rows: [0; 2048],
        }
    }

    // Row r is listed after those that are, if there is room.
    pub fn push(&mut self, r: usize)
        requires { r < 1024 }
        ensures { numbers_of self.new ≡ list_after 0 self.old.count r (numbers_of self.old) }
    {
        if self.count < 2048 {
            self.rows[self.count as usize] = r as u16;
            self.count += 1;
        }
    }

    // No row is listed any more.
    pub fn forget(&mut self)
        ensures { numbers_of self.new ≡ 0 ∷ self.old.rows }
    {
        self.count = 0;
    }

    // The rows that are listed.
    pub fn rows(&self) -> &[u16]
        ensures { result.now ≡ take self.now.count self.now.rows }
    {
        &self.rows[..(self.count as usize).min(2048)]
    }
}
