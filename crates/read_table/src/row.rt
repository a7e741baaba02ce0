// A line's four numbers.
ghost use Rattle.std.specs.Prelude.{◌≡◌, drop};
ghost use Rattle.base_numbers.specs.Reading.{option_of};
ghost use Rattle.read_table.specs.Fields.{number_field, row_from_line};

use crate::scan;

// The number of the field that begins at a place, if it holds one and a given byte ends it, and where the next field begins.
fn read_field(bytes: &[u8], at: usize, stop: u8) -> Option<(i32, usize)>
    ensures { result ≡ option_of (number_field stop (drop at bytes.now) at) }
{
    let (field, next) = scan::field(bytes, at, stop)?;
    Some((base_numbers::read_number(field)?, next))
}

// The line that begins at a place, read as four numbers, and where the next line begins.
pub fn read_row(bytes: &[u8], at: usize) -> Option<([i32; 4], usize)>
    ensures { result ≡ option_of (row_from_line bytes.now at) }
{
    let (kind, second) = read_field(bytes, at, b',')?;
    let (a, third) = read_field(bytes, second, b',')?;
    let (b, fourth) = read_field(bytes, third, b',')?;
    let (c, next) = read_field(bytes, fourth, b'\n')?;
    Some(([kind, a, b, c], next))
}
