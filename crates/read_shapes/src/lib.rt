// The recogniser of expressions: a loop over the sorts of tokens, with a stack of bytes for the open brackets.
#![tactic(auto)]

ghost use Rattle.std.specs.Prelude.{◌≡◌, ◌≤◌, ◌<◌, length};
ghost use Rattle.grammar.specs.Shapes.{initial, element};
ghost use Rattle.read_shapes.specs.Phrases.{phrase_in};
ghost use Rattle.read_shapes.specs.Numbers.{kind_at, complete_at};

mod numbers; // numbers.rt: kinds by number
mod turns; // turns.rt: what a token does to the state

use numbers::*;

// Whether an operand is wanted, has been read, or is a bare name so far.
#[derive(Clone, Copy, PartialEq, Eq)]
enum Mode {
    Wants,
    Has,
    HasName,
}

// What a token does: the mode and kind after it, how many brackets are then open, and what is pushed.
#[derive(Clone, Copy)]
struct Turn {
    mode: Mode,
    kind: u8,
    depth: usize,
    pushed: u8,
}

// Whether an operand has been read and no bracket is open.
fn complete(mode: Mode, depth: usize) -> bool
    ensures { result ≡ complete_at mode depth }
{
    mode != Mode::Wants && depth == 0
}

// Whether tokens of some sorts go from an operand's place to its end. The stack has a byte more than there are tokens: the lowest is unused.
fn recognise(first: u8, sorts: &[u8], stack: &mut [u8]) -> bool
    requires { (first < 8) × (length sorts.now ≤ 32768) × (length sorts.now < length stack.old) }
    ensures { result ≡ phrase_in (kind_at first) sorts.now }
{
    let mut mode = Mode::Wants;
    let mut kind = first;
    let mut depth: usize = 0;
    for sort in sorts {
        let Some(turn) = turns::turn(mode, kind, depth, stack[depth], *sort) else {
            return false;
        };
        stack[depth + 1] = turn.pushed;
        mode = turn.mode;
        kind = turn.kind;
        depth = turn.depth;
    }
    complete(mode, depth)
}

// The recogniser with a stack of a size.
fn recognise_in<const N: usize>(first: u8, sorts: &[u8]) -> bool
    requires { (first < 8) × (length sorts.now < N) × (N ≤ 32769) }
    ensures { result ≡ phrase_in (kind_at first) sorts.now }
{
    let mut stack = [0u8; N];
    recognise(first, sorts, &mut stack)
}

// The recogniser, with a small stack or one for the most tokens.
fn recognise_part(first: u8, sorts: &[u8]) -> bool
    requires { (first < 8) × (length sorts.now ≤ 32768) }
    ensures { result ≡ phrase_in (kind_at first) sorts.now }
{
    if sorts.len() <= 60 {
        recognise_in::<64>(first, sorts)
    } else {
        recognise_in::<32769>(first, sorts)
    }
}

// Whether tokens of some sorts are an expression.
pub fn is_phrase(sorts: &[u8]) -> bool
    requires { length sorts.now ≤ 32768 }
    ensures { result ≡ phrase_in initial sorts.now }
{
    recognise_part(INITIAL, sorts)
}

// Whether they are an element.
pub fn is_element(sorts: &[u8]) -> bool
    requires { length sorts.now ≤ 32768 }
    ensures { result ≡ phrase_in element sorts.now }
{
    recognise_part(ELEMENT, sorts)
}
