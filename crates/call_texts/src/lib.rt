// The entries for texts: the verdict and the run.
#![tactic(auto)]

ghost use Rattle.std.specs.Prelude.{◌≡◌, false, ◌≤◌, length};
ghost use Rattle.meaning.specs.Buffers.{too_short};
ghost use Rattle.meaning.specs.Answers.{verdict_of};
ghost use Rattle.grammar.specs.TextCalls.{check_text, reply_to_text};
ghost use Rattle.write_buffers.specs.Lending.{buffers_in, SameBuffers};

use meaning::{Answer, Verdict};
use write_buffers::LentBuffers;

// The verdict on a text, read into lent rows.
fn check_read(text: &[u8], rows: &mut [i32]) -> Verdict
    requires { 4096 ≤ length rows.old }
    ensures { result ≡ verdict_of (check_text text.now) }
{
    match read_text::read_text(text, rows) {
        Err(refused) => Verdict::Rejected(refused.number, refused.place),
        Ok(count) => check_verdict::check_rows(&rows[..4 * count]),
    }
}

// The verdict on a text.
pub fn check_text(text: &[u8]) -> Verdict
    ensures { result ≡ verdict_of (check_text text.now) }
{
    let mut rows = [0i32; 4096];
    check_read(text, &mut rows)
}

// A run of a text, read into lent rows.
fn run_read(
    text: &[u8],
    rows: &mut [i32],
    sheet: &[u8],
    choices: &[u16],
    budget: u32,
    lent: &mut LentBuffers<'_>,
) -> Answer
    requires room { 4096 ≤ length rows.old }
    requires long { too_short (buffers_in lent.old) ≡ false }
    ensures answered { record { answer = result; buffers = buffers_in lent.new } ≡ reply_to_text text.now sheet.now choices.now budget (buffers_in lent.old) }
    ensures same { SameBuffers lent.old lent.new }
{
    match read_text::read_text(text, rows) {
        Err(refused) => Answer::Refused(refused.number, refused.place),
        Ok(count) => call_table::run_rows(&rows[..4 * count], sheet, choices, budget, lent),
    }
}

// A run of a text.
pub fn run_text(
    text: &[u8],
    sheet: &[u8],
    choices: &[u16],
    budget: u32,
    lent: &mut LentBuffers<'_>,
) -> Answer
    ensures answered { record { answer = result; buffers = buffers_in lent.new } ≡ reply_to_text text.now sheet.now choices.now budget (buffers_in lent.old) }
    ensures same { SameBuffers lent.old lent.new }
{
    if lent.too_short() {
        return Answer::Refused(1, 0);
    }
    let mut rows = [0i32; 4096];
    run_read(text, &mut rows, sheet, choices, budget, lent)
}
