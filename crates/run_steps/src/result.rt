// What a run leaves.
use meaning::Outcome;
use run_changes::Outputs;
use run_values::store::State;

// What a run leaves: the outcome, the length of its order, how many steps are ready after it, its last state, the states of the rows, and what it gave to the host.
#[derive(Drop)]
pub struct Run {
    pub outcome: Outcome,
    pub steps: u32,
    pub ready: u32,
    pub state: State,
    pub states: [u8; 1024],
    pub outputs: Outputs,
}
