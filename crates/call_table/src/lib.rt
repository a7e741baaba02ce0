// The run's entries: a table's rows or bytes, a sheet, choices and a budget, and the seven lent buffers; a traced run is lent two lists besides.
#![tactic(auto)]

ghost use Rattle.std.specs.Prelude.{◌≡◌};
ghost use Rattle.meaning.specs.Answers.{reply, reply_to_bytes};
ghost use Rattle.meaning.specs.Trace.{reply_traced, reply_to_bytes_traced};
ghost use Rattle.machine.specs.Lending.{lent_lists, left_lists};
ghost use Rattle.write_buffers.specs.Lending.{lent_task, buffers_in, SameBuffers};

use meaning::Answer;
use write_buffers::LentBuffers;

// A run of rows lent as numbers.
pub fn run_rows(
    rows: &[i32],
    sheet: &[u8],
    choices: &[u16],
    budget: u32,
    lent: &mut LentBuffers<'_>,
) -> Answer
    ensures answered { record { answer = result; buffers = buffers_in lent.new } ≡ reply (lent_task rows sheet choices budget) (buffers_in lent.old) }
    ensures same { SameBuffers lent.old lent.new }
{
    if lent.too_short() {
        return Answer::Refused(1, 0);
    }
    let mut readied = [0u16; 1];
    let mut taken = [0u16; 1];
    let done = call_tasks::do_rows(rows, sheet, choices, budget, &mut readied, &mut taken);
    lent.put(done)
}

// A run of a table's bytes.
pub fn run_table(
    table: &[u8],
    sheet: &[u8],
    choices: &[u16],
    budget: u32,
    lent: &mut LentBuffers<'_>,
) -> Answer
    ensures answered { record { answer = result; buffers = buffers_in lent.new } ≡ reply_to_bytes table.now sheet.now choices.now budget (buffers_in lent.old) }
    ensures same { SameBuffers lent.old lent.new }
{
    if lent.too_short() {
        return Answer::Refused(1, 0);
    }
    let mut readied = [0u16; 1];
    let mut taken = [0u16; 1];
    let done = call_tasks::do_table(table, sheet, choices, budget, &mut readied, &mut taken);
    lent.put(done)
}

// A traced run of rows lent as numbers: for each step the two lists get how many steps were ready, and the row that orders the one taken.
pub fn run_rows_traced(
    rows: &[i32],
    sheet: &[u8],
    choices: &[u16],
    budget: u32,
    lent: &mut LentBuffers<'_>,
    readied: &mut [u16],
    taken: &mut [u16],
) -> Answer
    ensures answered { record { reply = record { answer = result; buffers = buffers_in lent.new }; lists = left_lists readied taken } ≡ reply_traced (lent_task rows sheet choices budget) (buffers_in lent.old) (lent_lists readied taken) }
    ensures same { SameBuffers lent.old lent.new }
{
    if run_trace::lists_short(readied.len(), taken.len()) {
        return Answer::Refused(1, 0);
    }
    if lent.too_short() {
        return Answer::Refused(1, 0);
    }
    let done = call_tasks::do_rows(rows, sheet, choices, budget, readied, taken);
    lent.put(done)
}

// A traced run of a table's bytes.
pub fn run_table_traced(
    table: &[u8],
    sheet: &[u8],
    choices: &[u16],
    budget: u32,
    lent: &mut LentBuffers<'_>,
    readied: &mut [u16],
    taken: &mut [u16],
) -> Answer
    ensures answered { record { reply = record { answer = result; buffers = buffers_in lent.new }; lists = left_lists readied taken } ≡ reply_to_bytes_traced table.now sheet.now choices.now budget (buffers_in lent.old) (lent_lists readied taken) }
    ensures same { SameBuffers lent.old lent.new }
{
    if run_trace::lists_short(readied.len(), taken.len()) {
        return Answer::Refused(1, 0);
    }
    if lent.too_short() {
        return Answer::Refused(1, 0);
    }
    let done = call_tasks::do_table(table, sheet, choices, budget, readied, taken);
    lent.put(done)
}
