// Which operands of an expression are followed by an operator.
#![tactic(auto)]

mod roles; // roles.rt: what a token is in an expression
mod marks; // marks.rt: the marks of its tokens

pub use marks::mark;
pub use roles::{had_after, is_between};

// A name or number; a round bracket that opens, a square one; one that closes; an operator that can stand between operands; another token.
#[derive(Clone, Copy, PartialEq, Eq)]
pub enum Role {
    Operand,
    RoundOpening,
    SquareOpening,
    Closing,
    Between,
    Other,
}
