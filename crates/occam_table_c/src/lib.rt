// The exported functions, for C: each is the function of the same name in `occam_table`. A slice is a pointer and a length.
#![tactic(auto)]

ghost use Rattle.std.specs.Prelude.{◌≡◌};
ghost use Rattle.meaning.specs.Answers.{check, check_bytes, verdict_of, check_counted, check_bytes_counted, reply, reply_to_bytes};
ghost use Rattle.grammar.specs.TextCalls.{check_text, reply_to_text};
ghost use Rattle.meaning.specs.Trace.{reply_traced, reply_to_bytes_traced};
ghost use Rattle.machine.specs.Lending.{lent_lists, left_lists};
ghost use Rattle.write_buffers.specs.Lending.{lent_task, lent_buffers, left_buffers};
ghost use Rattle.occam_table.specs.Packing.{verdict_number, checked_number};
ghost use Rattle.occam_table.specs.Exports.{packed, packed_traced, strip_number};
ghost use Rattle.occam_table.specs.RowsLent.{rows_lent, read_lent};

use occam_table::LentBuffers;

// The verdict on rows lent as numbers.
#[unsafe(no_mangle)]
pub extern "C" fn occam_check_rows(rows: &[i32]) -> u64
    ensures { result ≡ verdict_number (verdict_of (check rows.now)) }
{
    occam_table::occam_check_rows(rows)
}

// The verdict on a table's bytes.
#[unsafe(no_mangle)]
pub extern "C" fn occam_check_table(table: &[u8]) -> u64
    ensures { result ≡ verdict_number (verdict_of (check_bytes table.now)) }
{
    occam_table::occam_check_table(table)
}

// The verdict on rows lent as numbers, with the count of pairs compared.
#[unsafe(no_mangle)]
pub extern "C" fn occam_check_rows_counted(rows: &[i32]) -> u64
    ensures { result ≡ checked_number (check_counted rows.now) }
{
    occam_table::occam_check_rows_counted(rows)
}

// The verdict on a table's bytes, with the count of pairs compared.
#[unsafe(no_mangle)]
pub extern "C" fn occam_check_table_counted(table: &[u8]) -> u64
    ensures { result ≡ checked_number (check_bytes_counted table.now) }
{
    occam_table::occam_check_table_counted(table)
}

// A run of rows lent as numbers.
#[unsafe(no_mangle)]
pub extern "C" fn occam_run_rows(
    rows: &[i32],
    sheet: &[u8],
    choices: &[u16],
    budget: u32,
    cells: &mut [i32],
    marks: &mut [u8],
    states: &mut [u8],
    places: &mut [u32],
    numbers: &mut [i32],
    counts: &mut [u32],
    output_marks: &mut [u8],
) -> u64
    ensures { record { number = result; buffers = left_buffers cells marks states places numbers counts output_marks } ≡ packed (reply (lent_task rows sheet choices budget) (lent_buffers cells marks states places numbers counts output_marks)) }
{
    occam_table::occam_run_rows(
        rows,
        sheet,
        choices,
        budget,
        &mut LentBuffers {
            cells,
            marks,
            states,
            places,
            numbers,
            counts,
            output_marks,
        },
    )
}

// A run of a table's bytes.
#[unsafe(no_mangle)]
pub extern "C" fn occam_run_table(
    table: &[u8],
    sheet: &[u8],
    choices: &[u16],
    budget: u32,
    cells: &mut [i32],
    marks: &mut [u8],
    states: &mut [u8],
    places: &mut [u32],
    numbers: &mut [i32],
    counts: &mut [u32],
    output_marks: &mut [u8],
) -> u64
    ensures { record { number = result; buffers = left_buffers cells marks states places numbers counts output_marks } ≡ packed (reply_to_bytes table.now sheet.now choices.now budget (lent_buffers cells marks states places numbers counts output_marks)) }
{
    occam_table::occam_run_table(
        table,
        sheet,
        choices,
        budget,
        &mut LentBuffers {
            cells,
            marks,
            states,
            places,
            numbers,
            counts,
            output_marks,
        },
    )
}

// A traced run of rows lent as numbers: for each step how many steps were ready, and the row that orders the one taken, in two lent lists of
// 65,536 numbers.
#[unsafe(no_mangle)]
pub extern "C" fn occam_run_rows_traced(
    rows: &[i32],
    sheet: &[u8],
    choices: &[u16],
    budget: u32,
    cells: &mut [i32],
    marks: &mut [u8],
    states: &mut [u8],
    places: &mut [u32],
    numbers: &mut [i32],
    counts: &mut [u32],
    output_marks: &mut [u8],
    readied: &mut [u16],
    taken: &mut [u16],
) -> u64
    ensures { record { reply = record { number = result; buffers = left_buffers cells marks states places numbers counts output_marks }; lists = left_lists readied taken } ≡ packed_traced (reply_traced (lent_task rows sheet choices budget) (lent_buffers cells marks states places numbers counts output_marks) (lent_lists readied taken)) }
{
    occam_table::occam_run_rows_traced(
        rows,
        sheet,
        choices,
        budget,
        &mut LentBuffers {
            cells,
            marks,
            states,
            places,
            numbers,
            counts,
            output_marks,
        },
        readied,
        taken,
    )
}

// A traced run of a table's bytes.
#[unsafe(no_mangle)]
pub extern "C" fn occam_run_table_traced(
    table: &[u8],
    sheet: &[u8],
    choices: &[u16],
    budget: u32,
    cells: &mut [i32],
    marks: &mut [u8],
    states: &mut [u8],
    places: &mut [u32],
    numbers: &mut [i32],
    counts: &mut [u32],
    output_marks: &mut [u8],
    readied: &mut [u16],
    taken: &mut [u16],
) -> u64
    ensures { record { reply = record { number = result; buffers = left_buffers cells marks states places numbers counts output_marks }; lists = left_lists readied taken } ≡ packed_traced (reply_to_bytes_traced table.now sheet.now choices.now budget (lent_buffers cells marks states places numbers counts output_marks) (lent_lists readied taken)) }
{
    occam_table::occam_run_table_traced(
        table,
        sheet,
        choices,
        budget,
        &mut LentBuffers {
            cells,
            marks,
            states,
            places,
            numbers,
            counts,
            output_marks,
        },
        readied,
        taken,
    )
}

// A table's rows as numbers in a lent buffer of 4,096: how many numbers. 0 and nothing written if the bytes are refused, or the buffer is
// too short.
#[unsafe(no_mangle)]
pub extern "C" fn occam_read_rows(table: &[u8], rows: &mut [i32]) -> u64
    ensures { (result, rows.new) ≡ rows_lent table.now rows.old }
{
    occam_table::occam_read_rows(table, rows)
}

// A text's rows as numbers in a lent buffer of 4,096, with 0 behind them: how many rows, or the refusal.
#[unsafe(no_mangle)]
pub extern "C" fn occam_read_text(text: &[u8], rows: &mut [i32]) -> u64
    ensures { (result, rows.new) ≡ read_lent text.now rows.old }
{
    occam_table::occam_read_text(text, rows)
}

// The verdict on a text.
#[unsafe(no_mangle)]
pub extern "C" fn occam_check_text(text: &[u8]) -> u64
    ensures { result ≡ verdict_number (verdict_of (check_text text.now)) }
{
    occam_table::occam_check_text(text)
}

// A run of a text.
#[unsafe(no_mangle)]
pub extern "C" fn occam_run_text(
    text: &[u8],
    sheet: &[u8],
    choices: &[u16],
    budget: u32,
    cells: &mut [i32],
    marks: &mut [u8],
    states: &mut [u8],
    places: &mut [u32],
    numbers: &mut [i32],
    counts: &mut [u32],
    output_marks: &mut [u8],
) -> u64
    ensures { record { number = result; buffers = left_buffers cells marks states places numbers counts output_marks } ≡ packed (reply_to_text text.now sheet.now choices.now budget (lent_buffers cells marks states places numbers counts output_marks)) }
{
    occam_table::occam_run_text(
        text,
        sheet,
        choices,
        budget,
        &mut LentBuffers {
            cells,
            marks,
            states,
            places,
            numbers,
            counts,
            output_marks,
        },
    )
}

// Where the strip of an output channel begins, in the output numbers as in their marks, and its capacity.
#[unsafe(no_mangle)]
pub extern "C" fn occam_strip(rows: &[i32], channel: usize) -> u64
    ensures { result ≡ strip_number rows.now channel }
{
    occam_table::occam_strip(rows, channel)
}
