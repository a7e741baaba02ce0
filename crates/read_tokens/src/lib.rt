// The bytes of a line as tokens: which hang together, and which token they are.
#![tactic(auto)]

pub mod sorts; // sorts.rt: the sorts of token
mod chunks; // chunks.rt: which bytes hang together
mod table; // table.rt: the words and symbols
mod tokens; // tokens.rt: the token that bytes are

pub use chunks::{chunk_end, is_word_byte};
pub use tokens::token_of;

// A token as two numbers: its sort, and what the sort does not say of it.
#[derive(Clone, Copy)]
pub struct Lexeme {
    pub sort: u8,
    pub value: i32,
}
