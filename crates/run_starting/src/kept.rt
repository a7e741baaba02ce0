// What settling keeps: the row states, the members left of each running PAR, the rows that come to work and the blocks that start. A process starts from rows that
// are idle: the walk over a process calls the walk over its members, and back.
ghost use Rattle.std.specs.Prelude.{◌≡◌, false, List, ◌-◌, ◌<◌, ◌≤◌, ℤ, get_or};
ghost use Rattle.meaning.specs.Tree.{content_at};
ghost use Rattle.meaning.specs.State.{program, process_at};
ghost use Rattle.run_code.specs.Prepared.{Prepared};
ghost use Rattle.run_starting.specs.Parts.{Links, starts_if};

use crate::rows::RowList;
use run_code::place;

// The row states; by row the members left of a running PAR; the rows that come to work; the blocks that start.
// kept: a state is a number, as the lent buffer of states shows it (C interface)
#[derive(Drop)]
pub struct Kept {
    pub states: [u8; 1024],
    pub left: [u16; 1024],
    pub came: RowList,
    pub blocks: RowList,
}

impl Kept {
    ghost use Rattle.machine.specs.Came.{listed_rows, listed_blocks};
    ghost use Rattle.machine.specs.Counts as counts;
    ghost use Rattle.machine.specs.Counts.{row_comes, state_set, start_beneath, start_members};
    ghost use Rattle.run_starting.specs.Kept.{kept_lists, idle_lists, block_begins, lists_forgotten};

    // All rows are idle, and no row has come to work.
    pub fn new() -> Kept
        ensures { kept_lists result ≡ idle_lists }
    {
        let came = RowList::new();
        let blocks = RowList::new();
        Kept {
            states: [0; 1024],
            left: [0; 1024],
            came,
            blocks,
        }
    }

    // Row r comes to work.
    pub fn comes(&mut self, r: usize)
        requires { r < 1024 }
        ensures { kept_lists self.new ≡ row_comes r (kept_lists self.old) }
    {
        self.came.push(r);
    }

    // The block of row r starts.
    pub fn begins(&mut self, r: usize)
        requires { r < 1024 }
        ensures { kept_lists self.new ≡ block_begins r (kept_lists self.old) }
    {
        self.blocks.push(r);
    }

    // No row has come to work, and no block has started.
    pub fn forget(&mut self)
        ensures { kept_lists self.new ≡ lists_forgotten (kept_lists self.old) }
    {
        self.came.forget();
        self.blocks.forget();
    }

    // The rows that have come to work.
    pub fn working(&self) -> &[u16]
        requires { get_or (kept_lists self.now).came 0 0 ≤ 2048 }
        ensures { result.now ≡ listed_rows (kept_lists self.now).came }
    {
        self.came.rows()
    }

    // The blocks that have started.
    pub fn started(&self) -> &[u16]
        requires { get_or (kept_lists self.now).came 2049 0 ≤ 2048 }
        ensures { result.now ≡ listed_blocks (kept_lists self.now).came }
    {
        self.blocks.rows()
    }

    // Row r has n members left: it ends where there are none.
    pub fn remain(&mut self, r: usize, n: u16)
        requires { r < 1024 }
        ensures { kept_lists self.new ≡ counts.remain r n (kept_lists self.old) }
    {
        if n == 0 {
            self.states[r] = 2;
        } else {
            self.left[r] = n;
        }
    }

    // Row r has one member fewer left.
    pub fn lower(&mut self, r: usize)
        requires { r < 1024 }
        ensures { kept_lists self.new ≡ counts.remain r (get_or self.old.left r 0 - 1) (kept_lists self.old) }
    {
        let n = self.left[r];
        self.remain(r, if n < 2 { 0 } else { n - 1 });
    }
    // Row r runs, and its process starts its members, or comes to work.
    #[cycle(start_beneath_start_members_start_row)]
    pub fn start_row(&mut self, code: &[u16; 6150], r: usize)
        requires table { (rows : List ℤ) × Prepared rows code.now }
        requires row { r < 1024 }
        ensures { (rows : List ℤ) → Prepared rows code.now → kept_lists self.new ≡ start_beneath r (process_at (program rows) r) (state_set r 1 (kept_lists self.old)) }
    {
        self.states[r] = 1;
        self.start_beneath(code, r);
    }

    // The process of row r, which runs already, starts its members, or comes to work.
    #[cycle(start_beneath_start_members_start_row)]
    pub fn start_beneath(&mut self, code: &[u16; 6150], r: usize)
        requires table { (rows : List ℤ) × Prepared rows code.now }
        requires row { r < 1024 }
        ensures { (rows : List ℤ) → Prepared rows code.now → kept_lists self.new ≡ start_beneath r (process_at (program rows) r) (kept_lists self.old) }
    {
        match place(code, r, 0) {
            21 => self.start_members(code, 1024, false, r, 0),
            30 => self.start_members(code, place(code, r, 1) as usize, false, r, 0),
            31 => self.start_members(code, place(code, r, 1) as usize, true, r, 0),
            35 => {
                self.begins(r);
                let p = place(code, r, 2) as usize;
                self.start_row(code, p);
                if self.states[p] == 2 {
                    self.remain(r, 0);
                }
            }
            _ => self.comes(r),
        }
    }

    // The members from link m on start: all, or each in its turn. Their process has row r, and n of the members before them have not ended.
    #[cycle(start_beneath_start_members_start_row)]
    pub fn start_members(&mut self, code: &[u16; 6150], m: usize, all: bool, r: usize, n: u16)
        requires table { (rows : List ℤ) × Prepared rows code.now }
        requires inside { (m ≤ 1024) × (r < 1024) × (n ≤ m) }
        requires links { Links code.now m }
        ensures { (rows : List ℤ) → Prepared rows code.now → kept_lists self.new ≡ start_members (content_at rows m).listed all r n (kept_lists self.old) }
    {
        if place(code, m, 0) == 0 {
            self.remain(r, n);
            return;
        }
        let p = place(code, m, 1) as usize;
        self.start_row(code, p);
        let next = place(code, m, 2) as usize;
        if self.states[p] == 2 {
            self.start_members(code, next, all, r, n);
            return;
        }
        if all {
            self.start_members(code, next, all, r, n + 1);
        }
    }

    // The SEQ of row r starts its members from row m on, if a link stands there, each in its turn; it ends where there is none.
    pub fn start_next(&mut self, code: &[u16; 6150], m: usize, r: usize)
        requires table { (rows : List ℤ) × Prepared rows code.now }
        requires inside { (m ≤ 1024) × (r < 1024) }
        ensures { (rows : List ℤ) → Prepared rows code.now → kept_lists self.new ≡ start_members (content_at rows m).listed false r 0 (kept_lists self.old) }
    {
        match place(code, m, 0) {
            40 | 41 | 42 => self.start_members(code, m, false, r, 0),
            _ => self.remain(r, 0),
        }
    }

    // The process of row r starts its members, or comes to work, if its new state n is "running".
    pub fn start_if(&mut self, code: &[u16; 6150], r: usize, n: u8)
        requires table { (rows : List ℤ) × Prepared rows code.now }
        requires row { r < 1024 }
        ensures { (rows : List ℤ) → Prepared rows code.now → kept_lists self.new ≡ starts_if n r (process_at (program rows) r) (kept_lists self.old) }
    {
        if n == 1 {
            self.start_beneath(code, r);
        }
    }
}
