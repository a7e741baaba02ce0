// A text, read into rows. Refusals 12, 13 and 3.
#![tactic(auto)]

ghost use Rattle.std.specs.Prelude.{◌≡◌, ◌≤◌, length};
ghost use Rattle.grammar.specs.TextRows.{text_lines};
ghost use Rattle.read_levels.specs.Listing.{listing, TextListed, LevelsListed};
ghost use Rattle.read_levels.specs.Outlines.{Room};
ghost use Rattle.read_text.specs.Reading.{text_read};

mod names; // names.rt: its names resolved
mod rows; // rows.rt: its rows written

use read_processes::Lines;

// Why a text is refused: the number of the refusal, and its place.
#[derive(Clone, Copy, Debug, PartialEq, Eq)]
pub struct Refused {
    pub number: u8,
    pub place: u32,
}

// How many rows a text of the grammar has, put into lent rows, from its lines as they are listed: its names are resolved, then the number of its rows looked at.
fn read_listed(
    text: &[u8],
    kinds: &[u8],
    count: usize,
    levels: &[u16],
    ends: &[u16],
    sorts: &[u8],
    values: &mut [i32],
    rows: &mut [i32],
) -> Result<usize, Refused>
    requires { TextListed text.now count (listing kinds.now ends.now sorts.now values.old) × LevelsListed (text_lines text.now) count levels.now × (length kinds.now ≤ 32768) × (4096 ≤ length rows.old) }
    ensures { (result, rows.new) ≡ text_read text.now rows.old }
{
    let declared = names::resolve(text, kinds, count, ends, sorts, values).map_err(
        |line| Refused {
            number: 13,
            place: line,
        },
    )?;
    let made = read_counts::count_rows(kinds, count, ends, sorts);
    if 1024 < made {
        return Err(Refused {
            number: 3,
            place: 1024,
        });
    }
    let lines = Lines {
        count,
        kinds,
        levels,
        ends,
        sorts,
        values,
    };
    rows::write_rows(lines, declared, rows);
    Ok(made as usize)
}

// The rows of a text, in lent rows, with lists for its lines and tokens.
fn read_with(
    text: &[u8],
    kinds: &mut [u8],
    levels: &mut [u16],
    ends: &mut [u16],
    sorts: &mut [u8],
    values: &mut [i32],
    rows: &mut [i32],
) -> Result<usize, Refused>
    requires { Room (length text.now) levels.old (listing kinds.old ends.old sorts.old values.old) × (length kinds.old ≤ 32768) × (4096 ≤ length rows.old) }
    ensures { (result, rows.new) ≡ text_read text.now rows.old }
{
    match read_levels::outline(text, kinds, levels, ends, sorts, values) {
        Err(line) => Err(Refused {
            number: 12,
            place: line,
        }),
        Ok(count) => read_listed(text, kinds, count, levels, ends, sorts, values, rows),
    }
}

// The same of a text of at most 4,096 bytes, with lists for so many.
fn read_short(text: &[u8], rows: &mut [i32]) -> Result<usize, Refused>
    requires { (length text.now ≤ 4096) × (4096 ≤ length rows.old) }
    ensures { (result, rows.new) ≡ text_read text.now rows.old }
{
    let mut kinds = [0u8; 4096];
    let mut levels = [0u16; 4096];
    let mut ends = [0u16; 4096];
    let mut sorts = [0u8; 4096];
    let mut values = [0i32; 4096];
    read_with(
        text,
        &mut kinds,
        &mut levels,
        &mut ends,
        &mut sorts,
        &mut values,
        rows,
    )
}

// The same of a text of at most 32,768 bytes.
fn read_long(text: &[u8], rows: &mut [i32]) -> Result<usize, Refused>
    requires { (length text.now ≤ 32768) × (4096 ≤ length rows.old) }
    ensures { (result, rows.new) ≡ text_read text.now rows.old }
{
    let mut kinds = [0u8; 32768];
    let mut levels = [0u16; 32768];
    let mut ends = [0u16; 32768];
    let mut sorts = [0u8; 32768];
    let mut values = [0i32; 32768];
    read_with(
        text,
        &mut kinds,
        &mut levels,
        &mut ends,
        &mut sorts,
        &mut values,
        rows,
    )
}

// The rows of a text, in lent rows of 4,096 numbers; unused ones hold 0.
pub fn read_text(text: &[u8], rows: &mut [i32]) -> Result<usize, Refused>
    ensures { (result, rows.new) ≡ text_read text.now rows.old }
{
    if rows.len() < 4096 {
        return Err(Refused {
            number: 1,
            place: 0,
        });
    }
    if 32768 < text.len() {
        return Err(Refused {
            number: 12,
            place: 0,
        });
    }
    if text.len() <= 4096 {
        return read_short(text, rows);
    }
    read_long(text, rows)
}
