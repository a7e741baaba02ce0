// A readings sheet against the table's role 1 channels. Refusal 10.
#![tactic(auto)]

ghost use Rattle.std.specs.Prelude.{◌≡◌};
ghost use Rattle.read_sheet.specs.SheetRead.{sheet_read};

mod fields; // fields.rt: a field's reading
mod header; // header.rt: the line of the channels' row numbers
mod lines; // lines.rt: a line's readings

// Why no lines are read: a lent list has no room for the table's role 1 channels, 128 places each; or the line of the refusal.
#[derive(Clone, Copy, Debug, PartialEq, Eq)]
pub enum SheetError {
    Full,
    Refused(u32),
}

// The readings of a sheet, put into the lent lists: that of channel j at line l, from 0, at place j * 128 + l, a 0 where it is absent, and
// a mark that is 1 where there is a reading. Of a refused sheet, those before the first wrong field. How many lines of
// values there are.
pub fn read_sheet(
    rows: &[i32],
    sheet: &[u8],
    values: &mut [i32],
    marks: &mut [u8],
) -> Result<usize, SheetError>
    ensures { (result, values.new, marks.new) ≡ sheet_read rows.now sheet.now values.old marks.old }
{
    if 16384 < sheet.len() {
        return Err(SheetError::Refused(0));
    }
    let (count, first) = header::read_header(rows, sheet).ok_or(SheetError::Refused(1))?;
    if values.len() / 128 < count || marks.len() / 128 < count {
        return Err(SheetError::Full);
    }
    let mut line: usize = 0;
    let mut at = first;
    // kept: the place advances by a line, not by one
    while at < sheet.len() {
        if line == 128 {
            return Err(SheetError::Refused(130));
        }
        let next = lines::read_line(sheet, at, count, line, values, marks);
        at = next.ok_or(SheetError::Refused((line + 2) as u32))?;
        line += 1;
    }
    Ok(line)
}
