// Arithmetic on values, and reading and printing of numbers. Each function is its definition in the crate `meaning`.
#![tactic(auto)]

mod operators; // operators.rt: the values of operators
mod operands; // operands.rt: operators on operands that may have no value
mod wide; // wide.rt: sums, products and quotients in 64 bits, and back to 32
mod subscripts; // subscripts.rt: the place that a subscript means
mod reading; // reading.rt: a field's number
mod numerals; // numerals.rt: a number's digits

pub use numerals::{decimal, printed};
pub use operands::{decided, dyadic_after, dyadic_of, monadic_of};
pub use operators::{decides, dyadic, is_true, monadic};
pub use reading::read_number;
pub use subscripts::subscript;

// A printed number: its bytes, then zeros, and how many bytes it has.
// kept: no heap; `Printing.text_of` holds both fields, and `write_bytes` and `write_lines` build and read them
#[derive(Drop)]
pub struct Text {
    pub bytes: [u8; 11],
    pub length: usize,
}
