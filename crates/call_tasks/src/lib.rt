// A task: the stages of refusal in their order, then the run. Only the two lists of a traced run are lent here.
#![tactic(auto)]

ghost use Rattle.std.specs.Prelude.{◌≡◌, List, ℕ, ◌≤◌};
ghost use Rattle.std.proofs.Math.Option.{none};
ghost use Rattle.meaning.specs.Readings.{Sheet};
ghost use Rattle.meaning.specs.Answers.{check};
ghost use Rattle.machine.specs.Held.{KeptReadings};
ghost use Rattle.machine.specs.Lending.{lent_lists, left_lists};
ghost use Rattle.write_buffers.specs.Lending.{lent_task};
ghost use Rattle.call_tasks.specs.Tasks.{task_with, DoneAs, TableDoneAs, SheetKept};

use meaning::Verdict;
use read_sheet::SheetError;
use read_table::TableError;
use run_steps::result::Run;
use write_buffers::Refusal;

// The run of an accepted table on the readings that are kept, if the budget is not refused. The two lists are cleared before it.
fn run_readings<'a>(
    rows: &'a [i32],
    readings: &'a [i32],
    given: &'a [u8],
    lines: usize,
    choices: &[u16],
    budget: u32,
    readied: &mut [u16],
    taken: &mut [u16],
) -> Result<Run, Refusal>
    requires accepted { check rows.now ≡ none }
    requires kept { (sheet : Sheet) × KeptReadings rows.now sheet readings.now given.now lines }
    requires few { lines ≤ 128 }
    ensures { (sheet : List ℕ) → SheetKept rows.now sheet readings.now given.now lines → DoneAs (task_with rows.now sheet choices.now budget) result (lent_lists readied taken) (left_lists readied taken) }
{
    if 65536 < budget {
        return Err(Refusal {
            number: 11,
            place: 0,
        });
    }
    run_trace::clear(readied);
    run_trace::clear(taken);
    Ok(run_steps::run(
        rows, readings, given, lines, choices, budget, readied, taken,
    ))
}

// The run of an accepted table on its sheet, if the sheet and then the budget are not refused: with room for the readings of 8 channels, which is enough for all.
fn run_wide(
    rows: &[i32],
    sheet: &[u8],
    choices: &[u16],
    budget: u32,
    readied: &mut [u16],
    taken: &mut [u16],
) -> Result<Run, Refusal>
    requires { check rows.now ≡ none }
    ensures { DoneAs (lent_task rows sheet choices budget) result (lent_lists readied taken) (left_lists readied taken) }
{
    let mut readings = [0i32; 1024];
    let mut given = [0u8; 1024];
    match read_sheet::read_sheet(rows, sheet, &mut readings, &mut given) {
        Err(SheetError::Refused(place)) => Err(Refusal { number: 10, place }),
        Err(SheetError::Full) => Err(Refusal {
            number: 10,
            place: 0,
        }),
        Ok(lines) => run_readings(
            rows, &readings, &given, lines, choices, budget, readied, taken,
        ),
    }
}

// The same, with room for the readings of 4 channels first.
fn run_sheet(
    rows: &[i32],
    sheet: &[u8],
    choices: &[u16],
    budget: u32,
    readied: &mut [u16],
    taken: &mut [u16],
) -> Result<Run, Refusal>
    requires { check rows.now ≡ none }
    ensures { DoneAs (lent_task rows sheet choices budget) result (lent_lists readied taken) (left_lists readied taken) }
{
    let mut readings = [0i32; 512];
    let mut given = [0u8; 512];
    match read_sheet::read_sheet(rows, sheet, &mut readings, &mut given) {
        Err(SheetError::Refused(place)) => Err(Refusal { number: 10, place }),
        Err(SheetError::Full) => run_wide(rows, sheet, choices, budget, readied, taken),
        Ok(lines) => run_readings(
            rows, &readings, &given, lines, choices, budget, readied, taken,
        ),
    }
}

// A task whose rows are numbers.
pub fn do_rows(
    rows: &[i32],
    sheet: &[u8],
    choices: &[u16],
    budget: u32,
    readied: &mut [u16],
    taken: &mut [u16],
) -> Result<Run, Refusal>
    ensures { DoneAs (lent_task rows sheet choices budget) result (lent_lists readied taken) (left_lists readied taken) }
{
    let verdict = check_verdict::check_rows(rows);
    match verdict {
        Verdict::Rejected(number, place) => Err(Refusal { number, place }),
        Verdict::Accepted => run_sheet(rows, sheet, choices, budget, readied, taken),
    }
}

// A task whose table is bytes.
pub fn do_table(
    table: &[u8],
    sheet: &[u8],
    choices: &[u16],
    budget: u32,
    readied: &mut [u16],
    taken: &mut [u16],
) -> Result<Run, Refusal>
    ensures { TableDoneAs table.now sheet.now choices.now budget result (lent_lists readied taken) (left_lists readied taken) }
{
    let mut small = [0i32; 512];
    match read_table::read_table(table, &mut small) {
        Err(TableError::Refused(number, place)) => Err(Refusal { number, place }),
        Ok(n) => do_rows(&small[..4 * n], sheet, choices, budget, readied, taken),
        Err(TableError::Full) => do_large(table, sheet, choices, budget, readied, taken),
    }
}

// The same for a table of more than 128 rows; there is room for every table.
fn do_large(
    table: &[u8],
    sheet: &[u8],
    choices: &[u16],
    budget: u32,
    readied: &mut [u16],
    taken: &mut [u16],
) -> Result<Run, Refusal>
    ensures { TableDoneAs table.now sheet.now choices.now budget result (lent_lists readied taken) (left_lists readied taken) }
{
    let mut large = [0i32; 4096];
    match read_table::read_table(table, &mut large) {
        Err(TableError::Refused(number, place)) => Err(Refusal { number, place }),
        Ok(n) => do_rows(&large[..4 * n], sheet, choices, budget, readied, taken),
        Err(TableError::Full) => Err(Refusal {
            number: 3,
            place: 1024,
        }),
    }
}
