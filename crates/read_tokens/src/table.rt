// The words as constant tables, one for each first letter, and the token that a table has for some bytes; the symbols by their bytes.
ghost use Rattle.std.specs.Prelude.{◌≡◌, true, [], ◌∷◌, pos};
ghost use Rattle.meaning.specs.Lines as lines;
ghost use Rattle.grammar.specs.Tokens as tokens;
ghost use Rattle.read_tokens.specs.Lexemes.{valued, lexeme_of};
ghost use Rattle.read_tokens.specs.Table.{short, all_short, line_spelling, lexeme_in};

use crate::Lexeme;
use crate::sorts::*;
use read_table::scan;

// kept: a table for each first letter, so that a word is compared with three spellings at most; rows of bytes, as the definition `lexeme_in` has them.
// The words that begin with A. A line is a spelling with zeros behind it, how many bytes the spelling has, the token's sort and its value.
const WORDS_A: [[u8; 10]; 2] = [
    [b'A', b'L', b'T', 0, 0, 0, 0, 3, ALT, 0],
    [b'A', b'N', b'D', 0, 0, 0, 0, 3, AND, 0],
];

// The word that begins with C.
const WORDS_C: [[u8; 10]; 1] = [[b'C', b'H', b'A', b'N', 0, 0, 0, 4, CHAN, 0]];

// The words that begin with F.
const WORDS_F: [[u8; 10]; 2] = [
    [b'F', b'A', b'L', b'S', b'E', 0, 0, 5, UNUSED, 1],
    [b'F', b'O', b'R', 0, 0, 0, 0, 3, UNUSED, 2],
];

// The word that begins with G.
const WORDS_G: [[u8; 10]; 1] = [[b'G', b'I', b'V', b'E', b'N', 0, 0, 5, GIVEN, 0]];

// The words that begin with H.
const WORDS_H: [[u8; 10]; 2] = [
    [b'H', b'O', b'S', b'T', b'I', b'N', 0, 6, HOSTIN, 0],
    [b'H', b'O', b'S', b'T', b'O', b'U', b'T', 7, HOSTOUT, 0],
];

// The words that begin with I.
const WORDS_I: [[u8; 10]; 2] = [
    [b'I', b'N', b'T', 0, 0, 0, 0, 3, INT, 0],
    [b'I', b'F', 0, 0, 0, 0, 0, 2, IF, 0],
];

// The word that begins with M.
const WORDS_M: [[u8; 10]; 1] = [[b'M', b'I', b'N', b'U', b'S', 0, 0, 5, ARITH, 6]];

// The word that begins with N.
const WORDS_N: [[u8; 10]; 1] = [[b'N', b'O', b'T', 0, 0, 0, 0, 3, NOT, 0]];

// The word that begins with O.
const WORDS_O: [[u8; 10]; 1] = [[b'O', b'R', 0, 0, 0, 0, 0, 2, OR, 0]];

// The words that begin with P.
const WORDS_P: [[u8; 10]; 2] = [
    [b'P', b'A', b'R', 0, 0, 0, 0, 3, PAR, 0],
    [b'P', b'L', b'U', b'S', 0, 0, 0, 4, ARITH, 5],
];

// The word that begins with R.
const WORDS_R: [[u8; 10]; 1] = [[b'R', b'E', b'M', 0, 0, 0, 0, 3, ARITH, 4]];

// The words that begin with S.
const WORDS_S: [[u8; 10]; 3] = [
    [b'S', b'K', b'I', b'P', 0, 0, 0, 4, SKIP, 0],
    [b'S', b'T', b'O', b'P', 0, 0, 0, 4, STOP, 0],
    [b'S', b'E', b'Q', 0, 0, 0, 0, 3, SEQ, 0],
];

// The words that begin with T.
const WORDS_T: [[u8; 10]; 2] = [
    [b'T', b'I', b'M', b'E', b'S', 0, 0, 5, ARITH, 7],
    [b'T', b'R', b'U', b'E', 0, 0, 0, 4, UNUSED, 0],
];

// The word that begins with W.
const WORDS_W: [[u8; 10]; 1] = [[b'W', b'H', b'I', b'L', b'E', 0, 0, 5, WHILE, 0]];

// A token of a sort and a value.
fn lexeme(sort: u8, value: u8) -> Lexeme
    ensures { result ≡ valued sort (pos value) }
{
    Lexeme {
        sort,
        value: i32::from(value),
    }
}

// Whether a line's spelling is some bytes.
fn spells(line: [u8; 10], chunk: &[u8]) -> bool
    requires { short line ≡ true }
    ensures { result ≡ lines.same chunk.now (line_spelling line) }
{
    let size = line[7] as usize;
    scan::same(chunk, &line[..size])
}

// The token that a table has for some bytes.
fn look_up(table: &[[u8; 10]], chunk: &[u8]) -> Option<Lexeme>
    requires { all_short table.now ≡ true }
    ensures { result ≡ lexeme_in table.now chunk.now }
{
    for line in table {
        if spells(*line, chunk) {
            return Some(lexeme(line[8], line[9]));
        }
    }
    None
}

// The word of the grammar that some bytes are, by the first of them.
pub fn word(chunk: &[u8]) -> Option<Lexeme>
    ensures { result ≡ lexeme_of (tokens.token_spelt tokens.words chunk.now) }
{
    if chunk.is_empty() {
        return None;
    }
    match chunk[0] {
        b'A' => look_up(&WORDS_A, chunk),
        b'C' => look_up(&WORDS_C, chunk),
        b'F' => look_up(&WORDS_F, chunk),
        b'G' => look_up(&WORDS_G, chunk),
        b'H' => look_up(&WORDS_H, chunk),
        b'I' => look_up(&WORDS_I, chunk),
        b'M' => look_up(&WORDS_M, chunk),
        b'N' => look_up(&WORDS_N, chunk),
        b'O' => look_up(&WORDS_O, chunk),
        b'P' => look_up(&WORDS_P, chunk),
        b'R' => look_up(&WORDS_R, chunk),
        b'S' => look_up(&WORDS_S, chunk),
        b'T' => look_up(&WORDS_T, chunk),
        b'W' => look_up(&WORDS_W, chunk),
        _ => None,
    }
}

// The symbol that a byte is.
fn one_byte(b: u8) -> Option<Lexeme>
    ensures { result ≡ lexeme_of (tokens.token_spelt tokens.symbols (b ∷ [])) }
{
    match b {
        b':' => Some(lexeme(COLON, 0)),
        b'=' => Some(lexeme(ARITH, 8)),
        b'<' => Some(lexeme(ARITH, 10)),
        b'>' => Some(lexeme(ARITH, 12)),
        b'[' => Some(lexeme(SQUARE_OPEN, 0)),
        b']' => Some(lexeme(SQUARE_CLOSE, 0)),
        b'(' => Some(lexeme(ROUND_OPEN, 0)),
        b')' => Some(lexeme(ROUND_CLOSE, 0)),
        b'+' => Some(lexeme(ARITH, 0)),
        b'-' => Some(lexeme(MINUS, 0)),
        b'*' => Some(lexeme(ARITH, 2)),
        b'/' => Some(lexeme(ARITH, 3)),
        b'?' => Some(lexeme(ASKS, 0)),
        b'!' => Some(lexeme(TELLS, 0)),
        b'&' => Some(lexeme(AMPERSAND, 0)),
        _ => None,
    }
}

// The symbol that ends with `=`, by the byte before it.
fn with_equals(b: u8) -> Option<Lexeme>
    ensures { result ≡ lexeme_of (tokens.token_spelt tokens.symbols (b ∷ 61 ∷ [])) }
{
    match b {
        b':' => Some(lexeme(BECOMES, 0)),
        b'<' => Some(lexeme(ARITH, 11)),
        b'>' => Some(lexeme(ARITH, 13)),
        _ => None,
    }
}

// The symbol that ends with `>`, by the byte before it.
fn with_more(b: u8) -> Option<Lexeme>
    ensures { result ≡ lexeme_of (tokens.token_spelt tokens.symbols (b ∷ 62 ∷ [])) }
{
    match b {
        b'<' => Some(lexeme(ARITH, 9)),
        _ => None,
    }
}

// The symbol that two bytes are.
fn two_bytes(b: u8, c: u8) -> Option<Lexeme>
    ensures { result ≡ lexeme_of (tokens.token_spelt tokens.symbols (b ∷ c ∷ [])) }
{
    match c {
        b'=' => with_equals(b),
        b'>' => with_more(b),
        _ => None,
    }
}

// The symbol that some bytes are.
pub fn symbol(chunk: &[u8]) -> Option<Lexeme>
    ensures { result ≡ lexeme_of (tokens.token_spelt tokens.symbols chunk.now) }
{
    match chunk.len() {
        1 => one_byte(chunk[0]),
        2 => two_bytes(chunk[0], chunk[1]),
        _ => None,
    }
}
