// Where a line and a field end, and whether bytes are equal.
ghost use Rattle.std.specs.Prelude.{◌≡◌, ◌+◌, ◌-◌, drop, take, MatchOption, true, false};
ghost use Rattle.meaning.specs.Lines as lines;
ghost use Rattle.read_table.specs.Fields.{field_size, opens};

// Where the line that begins at a place ends: after its line feed, or at the end of the bytes.
pub fn line_end(bytes: &[u8], from: usize) -> usize
    ensures { result ≡ from + lines.line_size (drop from bytes.now) }
{
    for at in from..bytes.len() {
        if bytes[at] == b'\n' {
            return at + 1;
        }
    }
    from.max(bytes.len())
}

// Where the field that begins at a place ends: before a comma or a line feed, or at the end of the bytes.
pub fn field_end(bytes: &[u8], from: usize) -> usize
    ensures { result ≡ from + field_size (drop from bytes.now) }
{
    for at in from..bytes.len() {
        if bytes[at] == b',' || bytes[at] == b'\n' {
            return at;
        }
    }
    from.max(bytes.len())
}

// The field that begins at a place, if a given byte ends it, and where the next field begins.
pub fn field(bytes: &[u8], at: usize, stop: u8) -> Option<(&[u8], usize)>
    ensures { let s = drop at bytes.now in let n = field_size s in MatchOption result (opens stop (drop n s) ≡ false) (λ p. (opens stop (drop n s) ≡ true) × (p.0.now ≡ take n s) × (p.1 ≡ at + n + 1)) }
{
    let end = field_end(bytes, at);
    if end < bytes.len() && bytes[end] == stop {
        Some((&bytes[at..end], end + 1))
    } else {
        None
    }
}

// Whether bytes are equal one by one.
// kept: the eight callers' contracts speak of `Lines.same`; here stands once that `==` is that
pub fn same(a: &[u8], b: &[u8]) -> bool
    ensures { result ≡ lines.same a.now b.now }
{
    a == b
}
