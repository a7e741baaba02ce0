// Starts and resets over the prepared list: the row states, the members left of each running PAR, the rows that come to work and the blocks that start.
#![tactic(auto)]

pub mod kept; // kept.rt: what settling keeps; a process starts
pub mod rows; // rows.rt: a list of rows
pub mod reset; // reset.rt: every row of a process becomes idle
