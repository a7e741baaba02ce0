// A table's bytes, read into rows. Refusals 2 and 3.
#![tactic(auto)]

ghost use Rattle.std.specs.Prelude.{◌≡◌};
ghost use Rattle.read_table.specs.TableRead.{table_read};

pub mod scan; // scan.rt: where a line and a field end, and whether bytes are equal
mod row; // row.rt: a line's four numbers

// Why not all rows are read: there is no room for a row, or the bytes are refused, with the refusal's number and place.
#[derive(Clone, Copy, Debug, PartialEq, Eq)]
pub enum TableError {
    Full,
    Refused(u8, u32),
}

// The rows of a table's bytes, in lent rows of four numbers, up to the first line at fault or the first row without room; how many they are.
pub fn read_table(bytes: &[u8], rows: &mut [i32]) -> Result<usize, TableError>
    ensures { (result, rows.new) ≡ table_read bytes.now rows.old }
{
    if 32768 < bytes.len() {
        return Err(TableError::Refused(2, 0));
    }
    let first = scan::line_end(bytes, 0);
    if !scan::same(&bytes[..first], b"kind,a,b,c\n") {
        return Err(TableError::Refused(2, 1));
    }
    let room = rows.len() / 4;
    let mut count: usize = 0;
    let mut at = first;
    // kept: the place advances by a line, not by one
    while at < bytes.len() {
        let line = row::read_row(bytes, at).ok_or(TableError::Refused(2, (count + 2) as u32))?;
        if count == 1024 {
            return Err(TableError::Refused(3, 1024));
        }
        if count == room {
            return Err(TableError::Full);
        }
        let row = line.0;
        rows[4 * count..4 * count + 4].copy_from_slice(&row);
        count += 1;
        at = line.1;
    }
    Ok(count)
}
