// What a token does to the state of the recogniser; none where it may not stand.
ghost use Rattle.std.specs.Prelude.{◌≡◌, ◌<◌};
ghost use Rattle.read_shapes.specs.Turns as turns;

use crate::numbers::*;
use crate::{Mode, Turn};
use read_tokens::sorts;

// Another mode and kind.
fn keep(mode: Mode, kind: u8, depth: usize) -> Turn
    ensures { result ≡ turns.kept mode kind depth }
{
    Turn {
        mode,
        kind,
        depth,
        pushed: 0,
    }
}

// A bracket more.
fn open(byte: u8, depth: usize) -> Turn
    requires { depth < 32768 }
    ensures { result ≡ turns.opened byte depth }
{
    Turn {
        mode: Mode::Wants,
        kind: INITIAL,
        depth: depth + 1,
        pushed: byte,
    }
}

// A bracket less: the operand that it belongs to has been read.
fn close(top: u8, depth: usize) -> Turn
    requires { 0 < depth }
    ensures { result ≡ turns.closed top depth }
{
    Turn {
        mode: Mode::Has,
        kind: top % 8,
        depth: depth - 1,
        pushed: 0,
    }
}

// What only the place after GIVEN does not allow.
fn unless_element(kind: u8, then: Turn) -> Option<Turn>
    ensures { result ≡ turns.unless_element_turn kind then }
{
    (kind != ELEMENT).then_some(then)
}

// What only the first operand's place allows.
fn if_initial(kind: u8, then: Turn) -> Option<Turn>
    ensures { result ≡ turns.if_initial_turn kind then }
{
    (kind == INITIAL).then_some(then)
}

// AND or OR after an operand.
fn chain_on(chain: u8, kind: u8, depth: usize) -> Option<Turn>
    ensures { result ≡ turns.chain_turn chain kind depth }
{
    (kind == INITIAL || kind == chain).then_some(keep(Mode::Wants, chain, depth))
}

// The end of a phrase in round brackets.
fn round_off(top: u8, depth: usize) -> Option<Turn>
    ensures { result ≡ turns.round_off_turn top depth }
{
    if 0 < depth && top < 8 {
        Some(close(top, depth))
    } else {
        None
    }
}

// The end of a subscript.
fn square_off(top: u8, depth: usize) -> Option<Turn>
    ensures { result ≡ turns.square_off_turn top depth }
{
    if 0 < depth && 8 <= top {
        Some(close(top, depth))
    } else {
        None
    }
}

// The beginning of a subscript.
fn square_on(mode: Mode, kind: u8, depth: usize) -> Option<Turn>
    requires { (kind < 8) × (depth < 32768) }
    ensures { result ≡ turns.square_on_turn mode kind depth }
{
    if mode == Mode::HasName {
        Some(open(kind + 8, depth))
    } else {
        None
    }
}

// A token where an operand is wanted.
#[tactic(auto, unfolding(crate::specs::Turns::turn_wanting))]
fn turn_wanting(kind: u8, depth: usize, sort: u8) -> Option<Turn>
    requires { depth < 32768 }
    ensures { result ≡ turns.turn_wanting kind depth sort }
{
    match sort {
        sorts::NAME => Some(keep(Mode::HasName, kind, depth)),
        sorts::NUMBER => unless_element(kind, keep(Mode::Has, kind, depth)),
        sorts::MINUS => if_initial(kind, keep(Mode::Wants, FINAL, depth)),
        sorts::NOT => if_initial(kind, keep(Mode::Wants, FINAL, depth)),
        sorts::GIVEN => if_initial(kind, keep(Mode::Wants, ELEMENT, depth)),
        sorts::ROUND_OPEN => unless_element(kind, open(kind, depth)),
        _ => None,
    }
}

// A token after an operand.
#[tactic(auto, unfolding(crate::specs::Turns::turn_having))]
fn turn_having(mode: Mode, kind: u8, depth: usize, top: u8, sort: u8) -> Option<Turn>
    requires { (kind < 8) × (depth < 32768) }
    ensures { result ≡ turns.turn_having mode kind depth top sort }
{
    match sort {
        sorts::MINUS => if_initial(kind, keep(Mode::Wants, FINAL, depth)),
        sorts::ARITH => if_initial(kind, keep(Mode::Wants, FINAL, depth)),
        sorts::AND => chain_on(AND_CHAIN, kind, depth),
        sorts::OR => chain_on(OR_CHAIN, kind, depth),
        sorts::ROUND_CLOSE => round_off(top, depth),
        sorts::SQUARE_OPEN => square_on(mode, kind, depth),
        sorts::SQUARE_CLOSE => square_off(top, depth),
        _ => None,
    }
}

// What a token does.
#[tactic(auto, unfolding(crate::specs::Turns::turn_of))]
pub fn turn(mode: Mode, kind: u8, depth: usize, top: u8, sort: u8) -> Option<Turn>
    requires { (kind < 8) × (depth < 32768) }
    ensures { result ≡ turns.turn_of mode kind depth top sort }
{
    if mode == Mode::Wants {
        turn_wanting(kind, depth, sort)
    } else {
        turn_having(mode, kind, depth, top, sort)
    }
}
