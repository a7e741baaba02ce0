// The outcome of a run: at rest, ended if the root has ended, broken if a row is stopped, else stuck; before rest, spent.
ghost use Rattle.std.specs.Prelude.{◌≡◌, ◌≤◌, length, get_or, take};
ghost use Rattle.std.specs.List.{list_any};
ghost use Rattle.meaning.specs.Order.{is_stopped};
ghost use Rattle.run_turns.specs.Results.{rest_outcome};
ghost use Rattle.run_turns.specs.Ending.{outcome_with};

use meaning::Outcome;

// The state of row r; past the end every row is idle.
fn state_at(states: &[u8], r: usize) -> u8
    ensures { result ≡ get_or states.now r 0 }
{
    states.get(r).copied().unwrap_or(0)
}

// Whether a row is stopped.
fn any_stopped(states: &[u8]) -> bool
    ensures { result ≡ list_any is_stopped states.now }
{
    states.iter().any(|&state| 10 <= state)
}

// The outcome at rest of a table of n rows.
fn rest_outcome(states: &[u8], root: usize, n: usize) -> Outcome
    requires { n ≤ length states.now }
    ensures { result ≡ rest_outcome root n states.now }
{
    if state_at(states, root) == 2 {
        return Outcome::Ended;
    }
    if any_stopped(&states[..n]) {
        return Outcome::Broken;
    }
    Outcome::Stuck
}

// The outcome of a run that ends with `count` steps ready: that at rest where there is none.
pub fn outcome_with(count: usize, states: &[u8], root: usize, n: usize) -> Outcome
    requires { n ≤ length states.now }
    ensures { result ≡ outcome_with count root n states.now }
{
    if count == 0 {
        return rest_outcome(states, root, n);
    }
    Outcome::Spent
}
