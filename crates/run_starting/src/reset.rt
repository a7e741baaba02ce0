// Every row of a process becomes idle: an idle row is passed over with all beneath it, and of an IF or ALT the members after the one that was started.
ghost use Rattle.std.specs.Prelude.{◌≡◌, List, ◌<◌, ◌≤◌, ℤ};
ghost use Rattle.meaning.specs.Tree.{content_at};
ghost use Rattle.meaning.specs.State.{program, process_at};
ghost use Rattle.machine.specs.Upward as upward;
ghost use Rattle.machine.specs.Upward.{reset_members, reset_started};
ghost use Rattle.run_code.specs.Prepared.{Prepared};
ghost use Rattle.run_starting.specs.Parts.{Links, IsProcess};

use run_code::place;

// Every row of the process of row r becomes idle.
#[cycle(reset_reset_members_reset_started)]
pub fn reset(code: &[u16; 6150], r: usize, states: &mut [u8; 1024])
    requires table { (rows : List ℤ) × Prepared rows code.now }
    requires row { r < 1024 }
    ensures { (rows : List ℤ) → Prepared rows code.now → IsProcess rows r → states.new ≡ upward.reset (process_at (program rows) r) states.old }
{
    if states[r] == 0 {
        return;
    }
    states[r] = 0;
    // kept: an arm for each kind, as the edits name them
    match place(code, r, 0) {
        30 => reset_members(code, place(code, r, 1) as usize, states),
        31 => reset_members(code, place(code, r, 1) as usize, states),
        32 => reset_started(code, place(code, r, 1) as usize, states),
        33 => reset(code, place(code, r, 2) as usize, states),
        34 => reset_started(code, place(code, r, 1) as usize, states),
        35 => reset(code, place(code, r, 2) as usize, states),
        _ => {}
    }
}

// Every row of the members from link m on becomes idle.
#[cycle(reset_reset_members_reset_started)]
fn reset_members(code: &[u16; 6150], m: usize, states: &mut [u8; 1024])
    requires table { (rows : List ℤ) × Prepared rows code.now }
    requires inside { m ≤ 1024 }
    requires links { Links code.now m }
    ensures { (rows : List ℤ) → Prepared rows code.now → states.new ≡ reset_members (content_at rows m).listed states.old }
{
    if place(code, m, 0) == 0 {
        return;
    }
    reset(code, place(code, m, 1) as usize, states);
    reset_members(code, place(code, m, 2) as usize, states);
}

// Of the members from link m on, every row of the first that is not idle becomes idle.
#[cycle(reset_reset_members_reset_started)]
fn reset_started(code: &[u16; 6150], m: usize, states: &mut [u8; 1024])
    requires table { (rows : List ℤ) × Prepared rows code.now }
    requires inside { m ≤ 1024 }
    requires links { Links code.now m }
    ensures { (rows : List ℤ) → Prepared rows code.now → states.new ≡ reset_started (content_at rows m).listed states.old }
{
    if place(code, m, 0) == 0 {
        return;
    }
    let p = place(code, m, 1) as usize;
    if states[p] == 0 {
        reset_started(code, place(code, m, 2) as usize, states);
        return;
    }
    reset(code, p, states);
}
