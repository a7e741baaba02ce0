// What settling needs of a row.
ghost use Rattle.std.specs.Prelude.{◌≡◌};
ghost use Rattle.meaning.specs.Basics.{is_some};
ghost use Rattle.meaning.specs.Tree.{content_at};
ghost use Rattle.run_parents.specs.Shapes.{shape_at};

use base_layout::nodes::{natural, operand};

// How a running process starts its members: each in its turn, every one, or none without a step.
#[derive(Drop)]
pub enum Mode {
    InTurn,
    Together,
    ByStep,
}

// A row's part in settling. A row that it refers to is a higher row, or past the table where there is none.
// kept: three parts beside Neither; an Option of them gives each match and each definition a level more
#[derive(Drop)]
pub enum Shape {
    // a process that ends when it closes: how it starts its members, and the first link to them
    Ending(Mode, usize),
    // a WHILE or a block: the row of its process
    Single(usize),
    // a link to members: the row of one, and the next link
    Link(usize, usize),
    Neither,
}

// The part of row r in settling.
pub fn shape_at(rows: &[i32], r: usize) -> Shape
    ensures { result ≡ shape_at rows.now r }
{
    if rows.len() / 4 <= r {
        return Shape::Neither;
    }
    let none = rows.len();
    let a = operand(rows, r, 1);
    let b = operand(rows, r, 2);
    // kept: kinds are the table's own numbers, and the edits name the arms one by one
    match natural(rows, r, 0) {
        20 => Shape::Ending(Mode::ByStep, none),
        21 => Shape::Ending(Mode::InTurn, none),
        22 => Shape::Ending(Mode::ByStep, none),
        23 => Shape::Ending(Mode::ByStep, none),
        24 => Shape::Ending(Mode::ByStep, none),
        30 => Shape::Ending(Mode::InTurn, a),
        31 => Shape::Ending(Mode::Together, a),
        32 => Shape::Ending(Mode::ByStep, a),
        33 => Shape::Single(b),
        34 => Shape::Ending(Mode::ByStep, a),
        35 => Shape::Single(b),
        40 => Shape::Link(a, b),
        41 => Shape::Link(a, b),
        42 => Shape::Link(a, b),
        _ => Shape::Neither,
    }
}

// Whether a process stands at row r.
pub fn is_process(rows: &[i32], r: usize) -> bool
    ensures { result ≡ is_some (content_at rows.now r).process }
{
    let s = shape_at(rows, r);
    match s {
        Shape::Ending(_, _) => true,
        Shape::Single(_) => true,
        Shape::Link(_, _) => false,
        Shape::Neither => false,
    }
}
