// A readings sheet: its refusal, or its readings in two lent buffers, 128 places for each channel.
ghost use Rattle.std.specs.Prelude.{◌≡◌};
ghost use Rattle.read_sheet.specs.SheetRead.{sheet_read};
ghost use Rattle.test_leaves.specs.Leaves.{sheet_lent};

use crate::lending;
use read_sheet::SheetError;

// 10 and the line at the start of `place`, if the sheet is refused. 1 if a buffer has no room for the channels. Else 0 and the count of
// lines of values at the start of `place`.
#[unsafe(no_mangle)]
pub extern "C" fn leaf_sheet(
    rows: &[i32],
    sheet: &[u8],
    values: &mut [i32],
    marks: &mut [u8],
    place: &mut [u32],
) -> u32
    ensures { record { answer = result; values = values.new; marks = marks.new; place = place.new } ≡ sheet_lent (sheet_read rows.now sheet.now values.old marks.old) place.old }
{
    match read_sheet::read_sheet(rows, sheet, values, marks) {
        Err(SheetError::Refused(line)) => {
            lending::put_place(line, place);
            10
        }
        Err(SheetError::Full) => 1,
        Ok(n) => {
            lending::put_place(n as u32, place);
            0
        }
    }
}
