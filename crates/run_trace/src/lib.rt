// The two lists of a traced run: whether they have room for a trace, and how they are cleared before the run.
#![tactic(auto)]

ghost use Rattle.std.specs.Prelude.{◌≡◌, ◌||◌, ltb};
ghost use Rattle.meaning.specs.Limits.{max_budget};
ghost use Rattle.run_trace.specs.Cleared.{cleared};

// A lent list with nothing shown: 0 up to place 65,536. One that has no room for a trace is left as it is.
pub fn clear(list: &mut [u16])
    ensures { list.new ≡ cleared list.old }
{
    if list.len() < 65536 {
        return;
    }
    list[..65536].fill(0);
}

// Whether one of two lists of these lengths is too short for a trace.
pub fn lists_short(ready: usize, taken: usize) -> bool
    ensures { result ≡ (ltb ready max_budget || ltb taken max_budget) }
{
    ready < 65536 || taken < 65536
}
