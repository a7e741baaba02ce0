// The lent buffers: whether they are long enough, and what a task puts into them.
#![tactic(auto)]

ghost use Rattle.std.specs.Prelude.{◌≡◌};
ghost use Rattle.meaning.specs.Buffers.{too_short};
ghost use Rattle.write_buffers.specs.Replies.{any_short, Long, reply_in, put_reply};
ghost use Rattle.write_buffers.specs.Lending.{buffers_in, SameBuffers};

pub mod copying; // copying.rt: a list over the first places of a buffer

use copying::copy_over;
use meaning::Answer;
use run_steps::result::Run;

// Why there is no run: the paper's number of the refusal, and its place.
#[derive(Clone, Copy)]
pub struct Refusal {
    pub number: u8,
    pub place: u32,
}

// The seven buffers that a call is lent.
#[derive(Drop)]
pub struct LentBuffers<'a> {
    pub cells: &'a mut [i32],
    pub marks: &'a mut [u8],
    pub states: &'a mut [u8],
    pub places: &'a mut [u32],
    pub numbers: &'a mut [i32],
    pub counts: &'a mut [u32],
    pub output_marks: &'a mut [u8],
}

// Whether a lent buffer is shorter than its limit, by their lengths.
pub fn too_short(
    cells: usize,
    marks: usize,
    states: usize,
    places: usize,
    numbers: usize,
    counts: usize,
    output_marks: usize,
) -> bool
    ensures { result ≡ any_short cells marks states places numbers counts output_marks }
{
    cells < 256
        || marks < 256
        || states < 1024
        || places < 8
        || numbers < 1024
        || counts < 8
        || output_marks < 1024
}

impl LentBuffers<'_> {
    // Whether one of them is shorter than its limit.
    pub fn too_short(&self) -> bool
        ensures { result ≡ too_short (buffers_in self.now) }
    {
        too_short(
            self.cells.len(),
            self.marks.len(),
            self.states.len(),
            self.places.len(),
            self.numbers.len(),
            self.counts.len(),
            self.output_marks.len(),
        )
    }

    // The answer of a task; the arrays of a run are put into the buffers, a refusal leaves them alone.
    pub fn put(&mut self, done: Result<Run, Refusal>) -> Answer
        requires { Long (buffers_in self.old) }
        ensures answered { record { answer = result; buffers = buffers_in self.new } ≡ put_reply (reply_in done) (buffers_in self.old) }
        ensures same { SameBuffers self.old self.new }
    {
        match done {
            Err(refusal) => Answer::Refused(refusal.number, refusal.place),
            Ok(run) => {
                copy_over(&run.state.values, self.cells);
                copy_over(&run.state.marks, self.marks);
                copy_over(&run.states, self.states);
                copy_over(&run.state.places, self.places);
                copy_over(&run.outputs.numbers, self.numbers);
                copy_over(&run.outputs.counts, self.counts);
                copy_over(&run.outputs.marks, self.output_marks);
                Answer::Ran(run.outcome, run.steps, run.ready)
            }
        }
    }
}
