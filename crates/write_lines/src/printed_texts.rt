// What the sheet runner prints, from the beginning of a lent buffer: the number of bytes that were written.
ghost use Rattle.std.specs.Prelude.{◌≡◌, ℕ, ◌<◌, get_or};
ghost use Rattle.meaning.specs.Printing.{end_lines, refused_line, line_bytes, printed_lines};
ghost use Rattle.write_bytes.specs.Writing.{printed_in};
ghost use Rattle.write_lines.specs.Decoding.{table_rows, state_in};

use crate::lines;
use run_steps::result::Run;
use write_bytes::slices;

// The line of a refusal, without the line of names.
pub fn refusal_line(number: u8, place: u32, out: &mut [u8]) -> usize
    ensures { (result, out.new) ≡ printed_in (line_bytes (refused_line (number, place))) out.old }
{
    write_bytes::put_line(
        b"refused",
        number as u32,
        place,
        base_numbers::decimal(0),
        out,
        0,
    )
}

// The row states that a run leaves: bytes.
fn row_states(states: &[u8]) -> &[u8]
    ensures same { result.now ≡ states.now }
    ensures bytes { (i : ℕ) → get_or states.now i 0 < 256 }
{
    slices::part(states, 0, states.len())
}

// The printed text of a run: its outcome and steps, and the arrays that it leaves. Of the rows and the row states it looks at as many as a table may have.
pub fn run_printed_text(rows: &[i32], run: &Run, out: &mut [u8]) -> usize
    ensures written { (result, out.new) ≡ printed_in (printed_lines (end_lines (table_rows rows.now) run.now.outcome run.now.steps (state_in (table_rows rows.now) run.now.state.values run.now.state.marks run.now.states run.now.outputs.numbers run.now.outputs.counts run.now.outputs.marks))) out.old }
    ensures bytes { (i : ℕ) → get_or run.now.states i 0 < 256 }
{
    let table = slices::part(rows, 0, 4096);
    let states = slices::part(row_states(&run.states), 0, table.len() / 4);
    let mut place = write_bytes::put_bytes(b"what,name,at,value\n", out, 0);
    place = lines::put_answer(run.outcome, run.steps, out, place);
    place = lines::put_variables(table, &run.state.marks, &run.state.values, out, place);
    place = lines::put_outputs(
        table,
        &run.outputs.counts,
        &run.outputs.numbers,
        &run.outputs.marks,
        out,
        place,
    );
    lines::put_stops(states, out, place)
}
