// What a table means. The enums that the definitions share with the code.
#![tactic(auto)]

// A value, or the reason that there is none.
#[derive(Clone, Copy)]
pub enum Value {
    Number(i32),
    Missing(u8),
}

// The cell or channel element that a name and a subscript mean, or the reason that there is none.
#[derive(Drop)]
pub enum Index {
    At(usize),
    Fails(u8),
}

// A row's kind with its fields, as the table gives them.
#[derive(Drop)]
pub enum Node {
    Literal(i32),
    Element(usize, usize),
    Monadic(usize, usize),
    Dyadic(usize, usize, usize),
    Stop,
    Skip,
    Assignment(usize, usize, usize),
    Input(usize, usize, usize),
    Output(usize, usize, usize),
    Seq(usize),
    Par(usize),
    If(usize),
    While(usize, usize),
    Alt(usize),
    Block(usize, usize),
    Member(usize, usize),
    Choice(usize, usize, usize),
    OptionRow(usize, usize, usize),
    Guard(usize, usize),
    Other,
}

// How a run ends: at rest ("ended if the root has ended, broken if a row is stopped, else stuck"), or spent ("the steps equal the budget and one is ready").
#[derive(Clone, Copy)]
pub enum Outcome {
    Ended,
    Stuck,
    Broken,
    Spent,
}

// The answer to a call: a refusal by the paper's number with its place, or a run's outcome with its steps and how many are ready after it.
#[derive(Clone, Copy)]
pub enum Answer {
    Refused(u8, u32),
    Ran(Outcome, u32, u32),
}

// The verdict on a table alone: accepted, or refused by the paper's number with its place.
#[derive(Clone, Copy)]
pub enum Verdict {
    Accepted,
    Rejected(u8, u32),
}

// The verdict on a table alone, and the count of pairs of components compared.
#[derive(Drop)]
pub struct Checked {
    pub verdict: Verdict,
    pub pairs: u32,
}
