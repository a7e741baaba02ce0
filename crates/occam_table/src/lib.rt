// The public entries, and the functions that `occam_table_c` exports for C: a table's verdict, alone or with the count of pairs compared, a run's answer with what it leaves in the lent buffers, a table's rows, the same of a
// text, and the strip of an output channel. A slice is a pointer and a length.
#![tactic(auto)]

ghost use Rattle.std.specs.Prelude.{◌≡◌};
ghost use Rattle.meaning.specs.Answers.{check, check_bytes, verdict_of, check_counted, check_bytes_counted, reply, reply_to_bytes};
ghost use Rattle.grammar.specs.TextCalls.{check_text, reply_to_text};
ghost use Rattle.meaning.specs.Trace.{reply_traced, reply_to_bytes_traced};
ghost use Rattle.machine.specs.Lending.{lent_lists, left_lists};
ghost use Rattle.write_buffers.specs.Lending.{lent_task, buffers_in, SameBuffers};
ghost use Rattle.occam_table.specs.Packing.{verdict_number, checked_number};
ghost use Rattle.occam_table.specs.Exports.{packed, packed_traced, strip_number};
ghost use Rattle.occam_table.specs.RowsLent.{rows_lent, read_lent};

mod packing; // packing.rt: answers as one number

use write_buffers::copying;

// The public entries of Rattle callers: the verdict, alone or with its count, the run, untraced and traced, the same of a text and its rows, the strip of a host channel and its marks.
pub use call_table::{run_rows, run_rows_traced, run_table, run_table_traced};
pub use call_texts::{check_text, run_text};
pub use check_verdict::{check_rows, check_rows_counted, check_table, check_table_counted};
pub use read_text::read_text;
pub use write_buffers::LentBuffers;
pub use write_strips::{strip, strip_marks};

// The verdict on rows lent as numbers.
pub fn occam_check_rows(rows: &[i32]) -> u64
    ensures { result ≡ verdict_number (verdict_of (check rows.now)) }
{
    packing::verdict_number(check_verdict::check_rows(rows))
}

// The verdict on a table's bytes.
pub fn occam_check_table(table: &[u8]) -> u64
    ensures { result ≡ verdict_number (verdict_of (check_bytes table.now)) }
{
    packing::verdict_number(check_verdict::check_table(table))
}

// The verdict on rows lent as numbers, with the count of pairs compared.
pub fn occam_check_rows_counted(rows: &[i32]) -> u64
    ensures { result ≡ checked_number (check_counted rows.now) }
{
    packing::checked_number(check_verdict::check_rows_counted(rows))
}

// The verdict on a table's bytes, with the count of pairs compared.
pub fn occam_check_table_counted(table: &[u8]) -> u64
    ensures { result ≡ checked_number (check_bytes_counted table.now) }
{
    packing::checked_number(check_verdict::check_table_counted(table))
}

// A run of rows lent as numbers.
pub fn occam_run_rows(
    rows: &[i32],
    sheet: &[u8],
    choices: &[u16],
    budget: u32,
    lent: &mut LentBuffers<'_>,
) -> u64
    ensures answered { record { number = result; buffers = buffers_in lent.new } ≡ packed (reply (lent_task rows sheet choices budget) (buffers_in lent.old)) }
    ensures same { SameBuffers lent.old lent.new }
{
    packing::answer_number(call_table::run_rows(rows, sheet, choices, budget, lent))
}

// A run of a table's bytes.
pub fn occam_run_table(
    table: &[u8],
    sheet: &[u8],
    choices: &[u16],
    budget: u32,
    lent: &mut LentBuffers<'_>,
) -> u64
    ensures answered { record { number = result; buffers = buffers_in lent.new } ≡ packed (reply_to_bytes table.now sheet.now choices.now budget (buffers_in lent.old)) }
    ensures same { SameBuffers lent.old lent.new }
{
    packing::answer_number(call_table::run_table(table, sheet, choices, budget, lent))
}

// A traced run of rows lent as numbers: for each step how many steps were ready, and the row that orders the one taken, in two lent lists of
// 65,536 numbers.
pub fn occam_run_rows_traced(
    rows: &[i32],
    sheet: &[u8],
    choices: &[u16],
    budget: u32,
    lent: &mut LentBuffers<'_>,
    readied: &mut [u16],
    taken: &mut [u16],
) -> u64
    ensures answered { record { reply = record { number = result; buffers = buffers_in lent.new }; lists = left_lists readied taken } ≡ packed_traced (reply_traced (lent_task rows sheet choices budget) (buffers_in lent.old) (lent_lists readied taken)) }
    ensures same { SameBuffers lent.old lent.new }
{
    packing::answer_number(call_table::run_rows_traced(
        rows, sheet, choices, budget, lent, readied, taken,
    ))
}

// A traced run of a table's bytes.
pub fn occam_run_table_traced(
    table: &[u8],
    sheet: &[u8],
    choices: &[u16],
    budget: u32,
    lent: &mut LentBuffers<'_>,
    readied: &mut [u16],
    taken: &mut [u16],
) -> u64
    ensures answered { record { reply = record { number = result; buffers = buffers_in lent.new }; lists = left_lists readied taken } ≡ packed_traced (reply_to_bytes_traced table.now sheet.now choices.now budget (buffers_in lent.old) (lent_lists readied taken)) }
    ensures same { SameBuffers lent.old lent.new }
{
    packing::answer_number(call_table::run_table_traced(
        table, sheet, choices, budget, lent, readied, taken,
    ))
}

// A table's rows as numbers in a lent buffer of 4,096: how many numbers. 0 and nothing written if the bytes are refused, or the buffer is
// too short.
pub fn occam_read_rows(table: &[u8], rows: &mut [i32]) -> u64
    ensures { (result, rows.new) ≡ rows_lent table.now rows.old }
{
    if rows.len() < 4096 {
        return 0;
    }
    let mut held = [0i32; 4096];
    match read_table::read_table(table, &mut held) {
        Ok(count) => {
            let n = 4 * count;
            copying::copy_over(&held[..n], rows);
            n as u64
        }
        Err(_) => 0,
    }
}

// A text's rows as numbers in a lent buffer of 4,096, with 0 behind them: how many rows, or the refusal.
pub fn occam_read_text(text: &[u8], rows: &mut [i32]) -> u64
    ensures { (result, rows.new) ≡ read_lent text.now rows.old }
{
    packing::read_number(read_text::read_text(text, rows))
}

// The verdict on a text.
pub fn occam_check_text(text: &[u8]) -> u64
    ensures { result ≡ verdict_number (verdict_of (check_text text.now)) }
{
    packing::verdict_number(call_texts::check_text(text))
}

// A run of a text.
pub fn occam_run_text(
    text: &[u8],
    sheet: &[u8],
    choices: &[u16],
    budget: u32,
    lent: &mut LentBuffers<'_>,
) -> u64
    ensures answered { record { number = result; buffers = buffers_in lent.new } ≡ packed (reply_to_text text.now sheet.now choices.now budget (buffers_in lent.old)) }
    ensures same { SameBuffers lent.old lent.new }
{
    packing::answer_number(call_texts::run_text(text, sheet, choices, budget, lent))
}

// Where the strip of an output channel begins, in the output numbers as in their marks, and its capacity.
pub fn occam_strip(rows: &[i32], channel: usize) -> u64
    ensures { result ≡ strip_number rows.now channel }
{
    let span = write_strips::span_of(rows, channel, 65535);
    span.start as u64 + 65536 * (span.size as u64)
}
