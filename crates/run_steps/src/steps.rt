// The steps of a run, one after another, up to rest or the budget.
ghost use Rattle.std.specs.Prelude.{◌≡◌, ◌≤◌, get_or, set};
ghost use Rattle.meaning.specs.Readings.{Sheet};
ghost use Rattle.run_code.specs.Prepared.{Prepared};
ghost use Rattle.machine.specs.Held.{KeptReadings};
ghost use Rattle.machine.specs.Lending.{lent_lists, left_lists};
ghost use Rattle.run_turns.specs.Ending.{is_last};
ghost use Rattle.run_steps.specs.Ran.{RunShown};

use crate::outcome::outcome_with;
use crate::result::Run;
use run_changes::{Outputs, change_of};
use run_notes::Notes;
use run_ready_bits::{choose, total};
use run_settling::{begin, change_states};
use run_starting::kept::Kept;
use run_turns::{leave_step, note_all, put_host, unset_blocks, written_by};
use run_values::store::fresh;

// The choice for a step after n steps; 0 when the list is used up.
fn choice_at(choices: &[u16], n: u32) -> u16
    ensures { result ≡ get_or choices.now n 0 }
{
    choices.get(n as usize).copied().unwrap_or(0)
}

// Whether a run ends after n steps, with `count` steps ready: at rest, or with its budget used.
fn is_last(count: u64, n: u32, budget: u32) -> bool
    ensures { result ≡ is_last count n budget }
{
    count == 0 || n == budget
}

// A number is stored in a list of a traced run, at the place of step n, if there is one.
fn show(list: &mut [u16], n: u32, x: u16)
    ensures { list.new ≡ set list.old n x }
{
    // kept: `if let Some(place) = list.get_mut(..)` left two goals about the loan open, and is no plainer
    let i = n as usize;
    if i < list.len() {
        list[i] = x;
    }
}

// From the start, the steps that the choices pick, up to rest or the budget. What a row at work would do is noted once, when it comes to work. For each step the two
// lists get how many steps were ready, and the row that orders the one taken.
pub fn take_steps<'a>(
    rows: &'a [i32],
    code: &'a [u16; 6150],
    readings: &'a [i32],
    given: &'a [u8],
    lines: usize,
    choices: &[u16],
    budget: u32,
    readied: &mut [u16],
    taken: &mut [u16],
) -> Run
    requires table { Prepared rows.now code.now }
    requires kept { (sheet : Sheet) × KeptReadings rows.now sheet readings.now given.now lines }
    requires few { lines ≤ 128 }
    ensures { (sheet : Sheet) → KeptReadings rows.now sheet readings.now given.now lines → RunShown rows.now sheet choices.now budget result (lent_lists readied taken) (left_lists readied taken) }
{
    let root = base_rows::declarations(rows);
    let mut kept = Kept::new();
    let mut outputs = Outputs::new();
    let mut notes = Notes::new();
    let mut state = fresh();
    begin(code, root, &mut kept);
    note_all(
        code,
        &state,
        &outputs.counts,
        lines,
        kept.working(),
        &mut notes,
    );
    let mut n: u32 = 0;
    // kept: n is the number of steps that the run leaves (`steps`), and the one test of its end is `is_last`
    loop {
        let ready = total(&notes.bits);
        if is_last(ready, n, budget) {
            let outcome = outcome_with(ready as usize, &kept.states, root, rows.len() / 4);
            return Run {
                outcome,
                steps: n,
                ready: ready as u32,
                state,
                states: kept.states,
                outputs,
            };
        }
        let j = choose(&notes.bits, choice_at(choices, n));
        show(readied, n, ready as u16);
        show(taken, n, j as u16);
        let c = change_of(code, &notes, j);
        leave_step(code, &mut notes, c.owner, c.sender);
        let d = c.written;
        let w = written_by(d, &state.places, readings, given);
        put_host(d, &mut state.places, &mut outputs);
        match w {
            None => {}
            Some((cell, Some(x))) => {
                state = state.set(cell, x);
            }
            Some((cell, None)) => {
                state = state.unset(cell);
            }
        }
        change_states(code, c.at, c.next, c.sender, &mut kept);
        let blocks = kept.started();
        if !blocks.is_empty() {
            state = unset_blocks(code, blocks, state);
        }
        note_all(
            code,
            &state,
            &outputs.counts,
            lines,
            kept.working(),
            &mut notes,
        );
        n += 1;
    }
}
