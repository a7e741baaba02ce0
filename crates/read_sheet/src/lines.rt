// A line's readings, put where each channel's readings are kept.
ghost use Rattle.std.specs.Prelude.{◌≡◌, ◌*◌, ◌≤◌, ◌<◌, length, drop};
ghost use Rattle.read_table.specs.Fields.{stop_of};
ghost use Rattle.read_sheet.specs.Lines.{line_read};

use crate::fields;

// The byte that ends a field with so many after it on the line.
fn stop_of(after: usize) -> u8
    ensures { result ≡ stop_of after }
{
    if after == 0 { b'\n' } else { b',' }
}

// The line of so many readings that begins at a place, put into the values and the marks; of a wrong line, those before the first wrong
// field. Where the next line begins, if the line is right.
pub fn read_line(
    sheet: &[u8],
    from: usize,
    count: usize,
    line: usize,
    values: &mut [i32],
    marks: &mut [u8],
) -> Option<usize>
    requires { (line < 128) × (128 * count ≤ length values.old) × (128 * count ≤ length marks.old) }
    ensures { (result, values.new, marks.new) ≡ line_read count line from (drop from sheet.now) values.old marks.old }
{
    if count == 0 {
        return None;
    }
    let mut at = from;
    for j in 0..count {
        let (reading, next) = fields::read_field(sheet, at, stop_of(count - j - 1))?;
        values[j * 128 + line] = reading.unwrap_or(0);
        marks[j * 128 + line] = u8::from(reading.is_some());
        at = next;
    }
    Some(at)
}
