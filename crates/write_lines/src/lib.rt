// Standard input split, and what the sheet runner prints. Each function is its definition in the crate `meaning`.
#![tactic(auto)]

mod lines; // lines.rt: the lines of cells, outputs and stops
mod printed_texts; // printed_texts.rt: what is printed
mod splitting; // splitting.rt: the table and the sheet in standard input

pub use printed_texts::{refusal_line, run_printed_text};
pub use splitting::split;

// Where the table's bytes end and the sheet's begin.
#[derive(Drop)]
pub struct Parts {
    pub end: usize,
    pub start: usize,
}
