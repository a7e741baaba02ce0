// The table and the sheet in standard input: up to the first line `=`, and after it.
ghost use Rattle.std.specs.Prelude.{◌≡◌};
ghost use Rattle.meaning.specs.Lines.{same};
ghost use Rattle.meaning.specs.Runner.{separator};
ghost use Rattle.write_lines.specs.Splitting.{parts_of, Splits};

use crate::Parts;

// Whether a line is the line `=`.
fn is_separator(line: &[u8]) -> bool
    ensures { result ≡ same line.now separator }
{
    read_table::scan::same(line, b"=\n")
}

// The table is what comes before the first line `=`, the sheet what comes after it; without that line all is the table.
pub fn split(input: &[u8]) -> Parts
    ensures numbers { result ≡ parts_of input.now }
    ensures meaning { Splits input.now result }
{
    let mut at: usize = 0;
    while at < input.len() {
        let end = read_table::scan::line_end(input, at);
        if is_separator(&input[at..end]) {
            return Parts {
                end: at,
                start: end,
            };
        }
        at = end;
    }
    Parts { end: at, start: at }
}
