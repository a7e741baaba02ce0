// Settling upward over the prepared list, with counts: the row states, the members left of each running PAR, the rows that come to work and the blocks that start.
#![tactic(auto)]

ghost use Rattle.std.specs.Prelude.{◌≡◌, List, suc, ◌<◌, ◌≤◌, ℤ};
ghost use Rattle.std.proofs.Math.Option.{some};
ghost use Rattle.meaning.specs.State.{program, process_at};
ghost use Rattle.machine.specs.Upward.{parent_of};
ghost use Rattle.machine.specs.Counts.{start_row, goes_on_counted_at, upward_counted, change_up_counted};
ghost use Rattle.run_code.specs.Prepared.{Prepared};
ghost use Rattle.run_starting.specs.Kept.{kept_lists};
ghost use Rattle.run_starting.specs.Parts.{IsProcess};
ghost use Rattle.run_settling.specs.Changing.{AreProcesses, states_changed};

use run_code::place;
use run_starting::kept::Kept;
use run_starting::reset::reset;

// The process of row q goes on after its member of row r.
fn go_on(code: &[u16; 6150], q: usize, r: usize, kept: &mut Kept)
    requires table { (rows : List ℤ) × Prepared rows code.now }
    requires inside { (q < 1024) × (r < 1024) }
    ensures { (rows : List ℤ) → Prepared rows code.now → parent_of (program rows) r ≡ some q → kept_lists kept.new ≡ goes_on_counted_at (program rows) q r (kept_lists kept.old) }
{
    match place(code, q, 0) {
        30 => kept.start_next(code, place(code, r, 5) as usize, q),
        31 => kept.lower(q),
        33 => {
            reset(code, place(code, q, 2) as usize, &mut kept.states);
            kept.comes(q);
        }
        _ => {
            kept.states[q] = 2;
        }
    }
}

// From row r up: as long as a row has ended, its parent goes on.
fn settle_up(code: &[u16; 6150], r: usize, kept: &mut Kept)
    requires table { (rows : List ℤ) × (Prepared rows code.now × IsProcess rows r) }
    requires row { r < 1024 }
    ensures { (rows : List ℤ) → Prepared rows code.now → IsProcess rows r → kept_lists kept.new ≡ upward_counted (program rows) (suc r) r (kept_lists kept.old) }
{
    if kept.states[r] != 2 {
        return;
    }
    let note = place(code, r, 4);
    if note == 0 {
        return;
    }
    let q = note as usize - 1;
    go_on(code, q, r, kept);
    settle_up(code, q, kept);
}

// Row r gets state n, and what follows from that settles.
pub fn change_up(code: &[u16; 6150], r: usize, n: u8, kept: &mut Kept)
    requires table { (rows : List ℤ) × (Prepared rows code.now × IsProcess rows r) }
    requires row { r < 1024 }
    ensures { (rows : List ℤ) → Prepared rows code.now → IsProcess rows r → kept_lists kept.new ≡ change_up_counted (program rows) r n (kept_lists kept.old) }
{
    kept.states[r] = n;
    kept.start_if(code, r, n);
    settle_up(code, r, kept);
}

// Row `at` gets state n, the sender of a note ends, and what follows from that settles. The rows that come to work and the blocks that start by this are listed anew.
// kept: `sender` is a note, one more than a row or 0, as `run_notes::Notes` holds it in 16 bits an element (fixed memory)
pub fn change_states(code: &[u16; 6150], at: usize, n: u8, sender: u16, kept: &mut Kept)
    requires table { (rows : List ℤ) × (Prepared rows code.now × AreProcesses rows at sender) }
    requires inside { (at < 1024) × (sender ≤ 1024) }
    ensures { (rows : List ℤ) → Prepared rows code.now → AreProcesses rows at sender → kept_lists kept.new ≡ states_changed rows at n sender (kept_lists kept.old) }
{
    kept.forget();
    change_up(code, at, n, kept);
    if sender != 0 {
        let row = sender as usize - 1;
        change_up(code, row, 2, kept);
    }
}

// The process of row `root` starts.
pub fn begin(code: &[u16; 6150], root: usize, kept: &mut Kept)
    requires table { (rows : List ℤ) × Prepared rows code.now }
    requires row { root < 1024 }
    ensures { (rows : List ℤ) → Prepared rows code.now → IsProcess rows root → kept_lists kept.new ≡ start_row (process_at (program rows) root) (kept_lists kept.old) }
{
    kept.start_row(code, root);
}
