// The run of an accepted table: from the start, one step after another, as its choices pick, up to rest or its budget.
#![tactic(auto)]

ghost use Rattle.std.specs.Prelude.{◌≡◌, ◌≤◌};
ghost use Rattle.std.proofs.Math.Option.{none};
ghost use Rattle.meaning.specs.Readings.{Sheet};
ghost use Rattle.meaning.specs.Answers.{check};
ghost use Rattle.machine.specs.Held.{KeptReadings};
ghost use Rattle.machine.specs.Lending.{lent_lists, left_lists};
ghost use Rattle.run_steps.specs.Ran.{RunShown};

pub mod result; // result.rt: what a run leaves
mod outcome; // outcome.rt: the outcome of a run
mod steps; // steps.rt: the steps up to rest or the budget

use result::Run;

// The run of an accepted table on its readings, with these choices, up to rest or the budget. For each step the two lists get how many steps were ready, and the row
// that orders the one taken, as far as they have room.
pub fn run<'a>(
    rows: &'a [i32],
    readings: &'a [i32],
    given: &'a [u8],
    lines: usize,
    choices: &[u16],
    budget: u32,
    readied: &mut [u16],
    taken: &mut [u16],
) -> Run
    requires accepted { check rows.now ≡ none }
    requires kept { (sheet : Sheet) × KeptReadings rows.now sheet readings.now given.now lines }
    requires few { lines ≤ 128 }
    ensures { (sheet : Sheet) → KeptReadings rows.now sheet readings.now given.now lines → RunShown rows.now sheet choices.now budget result (lent_lists readied taken) (left_lists readied taken) }
{
    let mut code = [0u16; 6150];
    run_preparing::prepare(rows, &mut code);
    steps::take_steps(
        rows, &code, readings, given, lines, choices, budget, readied, taken,
    )
}
