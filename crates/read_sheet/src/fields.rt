// A field's reading.
ghost use Rattle.std.specs.Prelude.{◌≡◌, drop};
ghost use Rattle.read_sheet.specs.Fields.{reading_field, reading_told};

// The field of a line of values that begins at a place: its reading, if it is one and a given byte ends it, and where the next begins.
pub fn read_field(sheet: &[u8], at: usize, stop: u8) -> Option<(Option<i32>, usize)>
    ensures { result ≡ reading_told (reading_field stop (drop at sheet.now) at) }
{
    let (field, next) = read_table::scan::field(sheet, at, stop)?;
    if field.is_empty() {
        return Some((None, next));
    }
    Some((Some(base_numbers::read_number(field)?), next))
}
