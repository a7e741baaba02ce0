// Answers as one number.
ghost use Rattle.std.specs.Prelude.{◌≡◌};
ghost use Rattle.occam_table.specs.Packing.{outcome_number, verdict_number, checked_number, read_number, answer_number};
ghost use Rattle.occam_table.specs.PackingClaims.{PossibleChecked, PossibleRead, PossibleAnswer};

use meaning::{Answer, Checked, Outcome, Verdict};
use read_text::Refused;

// A verdict's number: 0, or the refusal's with its place.
pub fn verdict_number(v: Verdict) -> u64
    ensures { result ≡ verdict_number v }
{
    match v {
        Verdict::Accepted => 0,
        Verdict::Rejected(number, place) => number as u64 + 65536 * (place as u64),
    }
}

// A verdict's number with, from bit 32 on, the count of pairs compared.
pub fn checked_number(c: Checked) -> u64
    requires { PossibleChecked c }
    ensures { result ≡ checked_number c }
{
    let verdict = c.verdict;
    verdict_number(verdict) + 4294967296 * (c.pairs as u64)
}

// What reading a text comes to: the count of rows, or the refusal's number with its place.
pub fn read_number(r: Result<usize, Refused>) -> u64
    requires { PossibleRead r }
    ensures { result ≡ read_number r }
{
    match r {
        Ok(count) => 65536 * (count as u64),
        Err(refused) => refused.number as u64 + 65536 * (refused.place as u64),
    }
}

// An outcome's number.
fn outcome_number(o: Outcome) -> u64
    ensures { result ≡ outcome_number o }
{
    match o {
        Outcome::Ended => 1,
        Outcome::Stuck => 2,
        Outcome::Broken => 3,
        Outcome::Spent => 4,
    }
}

// An answer's number: the refusal's with its place, or the outcome's with the steps and how many are ready.
pub fn answer_number(a: Answer) -> u64
    requires { PossibleAnswer a }
    ensures { result ≡ answer_number a }
{
    match a {
        Answer::Refused(number, place) => number as u64 + 65536 * (place as u64),
        Answer::Ran(outcome, steps, ready) => {
            256 * outcome_number(outcome) + 65536 * (steps as u64) + 1099511627776 * (ready as u64)
        }
    }
}
