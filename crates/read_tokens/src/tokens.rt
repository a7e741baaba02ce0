// The token that bytes are: a word or a name, else a symbol or a number.
ghost use Rattle.std.specs.Prelude.{◌≡◌, ◌↔◌, All, IsTrue};
ghost use Rattle.meaning.specs.Numerals as numerals;
ghost use Rattle.grammar.specs.Tokens as tokens;
ghost use Rattle.read_tokens.specs.Lexemes.{lexeme_of};

use crate::{Lexeme, chunks, sorts, table};

// Whether each of some bytes is a letter, a digit or `_`.
fn are_word_bytes(bytes: &[u8]) -> bool
    ensures { IsTrue result ↔ All (λ b. IsTrue (tokens.is_word_byte b)) bytes.now }
{
    bytes.iter().all(|b| chunks::is_word_byte(*b))
}

// Whether bytes are a letter, and then letters, digits and `_`.
fn is_word(chunk: &[u8]) -> bool
    ensures { result ≡ tokens.is_word chunk.now }
{
    !chunk.is_empty() && chunks::is_letter(chunk[0]) && are_word_bytes(&chunk[1..])
}

// A word of the grammar, or else a name of at most 31 bytes.
fn word_or_name(chunk: &[u8]) -> Option<Lexeme>
    ensures { result ≡ lexeme_of (tokens.or_name (tokens.token_spelt tokens.words chunk.now) chunk.now) }
{
    if let Some(found) = table::word(chunk) {
        return Some(found);
    }
    if chunk.len() <= 31 {
        return Some(Lexeme {
            sort: sorts::NAME,
            value: chunk.len() as i32,
        });
    }
    None
}

// A symbol, or else a number.
fn symbol_or_number(chunk: &[u8]) -> Option<Lexeme>
    ensures { result ≡ lexeme_of (tokens.or_number (tokens.token_spelt tokens.symbols chunk.now) (numerals.number chunk.now)) }
{
    if let Some(found) = table::symbol(chunk) {
        return Some(found);
    }
    let z = base_numbers::read_number(chunk)?;
    Some(Lexeme {
        sort: sorts::NUMBER,
        value: z,
    })
}

// The token that bytes are.
pub fn token_of(chunk: &[u8]) -> Option<Lexeme>
    ensures { result ≡ lexeme_of (tokens.token_of chunk.now) }
{
    if is_word(chunk) {
        word_or_name(chunk)
    } else {
        symbol_or_number(chunk)
    }
}
