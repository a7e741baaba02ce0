// The sheet runner ("A run on paper"): from the bytes of standard input to the bytes that are printed.
#![tactic(auto)]

ghost use Rattle.std.specs.Prelude.{◌≡◌, [], ◌≤◌, length};
ghost use Rattle.meaning.specs.Limits.{max_budget};
ghost use Rattle.meaning.specs.TableBytes.{rows_of};
ghost use Rattle.meaning.specs.Answers.{reply_of, result as result_of_task, result_of_bytes};
ghost use Rattle.machine.specs.Held.{blank};
ghost use Rattle.write_buffers.specs.Replies.{reply_in};
ghost use Rattle.meaning.specs.Printing.{line_bytes, refused_line};
ghost use Rattle.meaning.specs.Runner.{printed_result, runner};
ghost use Rattle.meaning.specs.PrintedForms.{Each, In32};
ghost use Rattle.write_bytes.specs.Writing.{printed_in};
ghost use Rattle.call_runner.specs.PrintedTexts.{task_of, max_printed_text, printed_bytes};

use read_table::TableError;
use run_steps::result::Run;
use write_buffers::Refusal;

// What is printed: its bytes at the start of a buffer that holds every printed text, zeros after them, and how many they are.
#[derive(Drop)]
pub struct PrintedText {
    pub bytes: [u8; 98304],
    pub length: usize,
}

// The line of a refusal.
fn refusal_printed_text(number: u8, place: u32, out: &mut [u8]) -> usize
    ensures written { (result, out.new) ≡ printed_in (line_bytes (refused_line (number, place))) out.old }
    ensures fits { length (line_bytes (refused_line (number, place))) ≤ max_printed_text }
{
    write_lines::refusal_line(number, place, out)
}

// What the task of rows and a sheet comes to: no choices, budget 65,536, and no trace is kept.
fn task_done(rows: &[i32], sheet: &[u8]) -> Result<Run, Refusal>
    ensures { reply_in result ≡ reply_of rows.now blank (result_of_task (task_of rows.now sheet.now)) }
{
    let choices = [0u16; 0];
    let mut readied = [0u16; 1];
    let mut taken = [0u16; 1];
    call_tasks::do_rows(rows, sheet, &choices, 65536, &mut readied, &mut taken)
}

// The printed text of rows and a sheet.
fn rows_printed_text(rows: &[i32], sheet: &[u8], out: &mut [u8]) -> usize
    ensures written { (result, out.new) ≡ printed_in (printed_result rows.now (result_of_task (task_of rows.now sheet.now))) out.old }
    ensures fits { Each In32 rows.now → length (printed_result rows.now (result_of_task (task_of rows.now sheet.now))) ≤ max_printed_text }
{
    match task_done(rows, sheet) {
        Err(refusal) => refusal_printed_text(refusal.number, refusal.place, out),
        Ok(run) => write_lines::run_printed_text(rows, &run, out),
    }
}

// The printed text of a table's bytes and a sheet: the table is read first, into room for every table.
fn table_printed_text(table: &[u8], sheet: &[u8], out: &mut [u8]) -> usize
    ensures written { (result, out.new) ≡ printed_in (printed_result (rows_of table.now) (result_of_bytes table.now sheet.now [] max_budget)) out.old }
    ensures fits { length (printed_result (rows_of table.now) (result_of_bytes table.now sheet.now [] max_budget)) ≤ max_printed_text }
{
    let mut rows = [0i32; 4096];
    match read_table::read_table(table, &mut rows) {
        Err(TableError::Refused(number, place)) => refusal_printed_text(number, place, out),
        Ok(n) => rows_printed_text(&rows[..4 * n], sheet, out),
        Err(TableError::Full) => refusal_printed_text(3, 1024, out),
    }
}

// What the sheet runner prints for standard input, at the start of a lent buffer: how many bytes. 98,304 bytes hold all of it.
fn answer_printed_text(input: &[u8], out: &mut [u8]) -> usize
    ensures written { (result, out.new) ≡ printed_in (runner input.now) out.old }
    ensures fits { length (runner input.now) ≤ max_printed_text }
{
    let parts = write_lines::split(input);
    table_printed_text(&input[..parts.end], &input[parts.start..], out)
}

// What the sheet runner prints for standard input.
pub fn answer(input: &[u8]) -> PrintedText
    ensures printed { result ≡ printed_bytes (runner input.now) }
    ensures inside { result.length ≤ length result.bytes }
{
    let mut bytes = [0u8; 98304];
    let length = answer_printed_text(input, &mut bytes);
    PrintedText { bytes, length }
}
