// Which bytes hang together.
ghost use Rattle.std.specs.Prelude.{◌≡◌, ◌+◌, drop};
ghost use Rattle.meaning.specs.Numerals.{is_digit};
ghost use Rattle.grammar.specs.Tokens as tokens;
ghost use Rattle.read_tokens.specs.Chunks.{chunk_size};

// Whether a byte is a letter.
pub fn is_letter(b: u8) -> bool
    ensures { result ≡ tokens.is_letter b }
{
    b.is_ascii_alphabetic()
}

// Whether a byte is one of `0` to `9`.
fn is_digit(b: u8) -> bool
    ensures { result ≡ is_digit b }
{
    b.is_ascii_digit()
}

// Whether a byte is a letter, a digit or `_`.
pub fn is_word_byte(b: u8) -> bool
    ensures { result ≡ tokens.is_word_byte b }
{
    is_digit(b) || is_letter(b) || b == b'_'
}

// Whether two neighbouring bytes belong to one token.
pub fn hang(b: u8, c: u8) -> bool
    ensures { result ≡ tokens.hang b c }
{
    match b {
        b'-' => is_digit(c),
        b':' => c == b'=',
        b'<' => c == b'=' || c == b'>',
        b'>' => c == b'=',
        _ => is_word_byte(b) && is_word_byte(c),
    }
}

// Where the bytes that hang together with the one at a place end.
pub fn chunk_end(text: &[u8], from: usize) -> usize
    ensures { result ≡ from + chunk_size (drop from text.now) }
{
    if text.len() <= from {
        return from;
    }
    for last in from..text.len() - 1 {
        if !hang(text[last], text[last + 1]) {
            return last + 1;
        }
    }
    text.len()
}
