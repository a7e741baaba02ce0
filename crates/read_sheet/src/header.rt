// A sheet's first line: the row numbers of the role 1 channels, joined by commas.
ghost use Rattle.std.specs.Prelude.{◌≡◌};
ghost use Rattle.meaning.specs.Lines as lines;
ghost use Rattle.meaning.specs.Numerals as numerals;
ghost use Rattle.base_numbers.specs.Reading.{option_of};
ghost use Rattle.read_sheet.specs.Header.{header_entry, EndsAt, header_read};

// Whether a field is a number, printed. Digits are compared from the last one on.
// kept: the loop takes the number apart; its place goes down with each digit taken
fn is_decimal(field: &[u8], n: usize) -> bool
    ensures { result ≡ lines.same field.now (numerals.decimal n) }
{
    let mut at = field.len();
    let mut rest = n;
    while 10 <= rest {
        if at == 0 {
            return false;
        }
        at -= 1;
        if field[at] != b'0' + (rest % 10) as u8 {
            return false;
        }
        rest = rest / 10;
    }
    if at != 1 {
        return false;
    }
    field[0] == b'0' + rest as u8
}

// Where row r's number ends that begins at a place, if a comma or a line feed follows it.
fn number_end(sheet: &[u8], from: usize, r: usize) -> Option<usize>
    ensures { EndsAt sheet.now from (numerals.decimal r) result }
{
    let end = read_table::scan::field_end(sheet, from);
    if sheet.len() <= end || !is_decimal(&sheet[from..end], r) {
        return None;
    }
    Some(end)
}

// The same of a number that stands behind a comma, unless it is the first of the line.
fn entry_end(sheet: &[u8], from: usize, before: usize, r: usize) -> Option<usize>
    ensures { EndsAt sheet.now from (header_entry before r) result }
{
    if before == 0 {
        return number_end(sheet, from, r);
    }
    if sheet.len() <= from || sheet[from] != b',' {
        return None;
    }
    number_end(sheet, from + 1, r)
}

// The first line of a sheet, compared with the table's role 1 channels in row order: how many they are, and where the next line begins.
pub fn read_header(rows: &[i32], sheet: &[u8]) -> Option<(usize, usize)>
    ensures { result ≡ option_of (header_read rows.now sheet.now) }
{
    let declared = base_rows::declarations(rows);
    let mut count: usize = 0;
    let mut at: usize = 0;
    for r in 0..declared {
        if base_rows::has_role(1, rows, declared, r) {
            at = entry_end(sheet, at, count, r)?;
            count += 1;
        }
    }
    if sheet.len() <= at || sheet[at] != b'\n' {
        return None;
    }
    Some((count, at + 1))
}
