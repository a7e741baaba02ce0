// What a run prepares of a table once: the part of each row in settling, the ALT of each option, the parent of each row.
#![tactic(auto)]

pub mod shape; // shape.rt: the part of a row in settling
pub mod owners; // owners.rt: the ALT of each option
pub mod parents; // parents.rt: the parent of each row, and the link to the members after it
