// The parts of a line: where its first mark parts it, and what a part is, by the sorts of its tokens.
ghost use Rattle.std.specs.Prelude.{◌≡◌, ◌≤◌, length};
ghost use Rattle.read_classes.specs.Parts.{mark_at};
ghost use Rattle.read_classes.specs.Rules.{is_empty, size_in, named_in, numbered_in, alone_in, exchange_in, event_in, part_is};

use read_table::scan;
use read_tokens::sorts;

// What a part of a line may be: nothing; an expression; an element; a size, or nothing; a name and a colon; a number, a name and a colon; what a guard waits for,
// SKIP or an input.
#[derive(Clone, Copy)]
pub enum Part {
    Nothing,
    Phrase,
    Element,
    Size,
    Named,
    Numbered,
    Event,
}

// The sorts of a size's tokens.
const SIZE_SORTS: [u8; 3] = [sorts::SQUARE_OPEN, sorts::NUMBER, sorts::SQUARE_CLOSE];

// The sorts of a name and a colon.
const NAMED_SORTS: [u8; 2] = [sorts::NAME, sorts::COLON];

// The sorts of a number, a name and a colon.
const NUMBERED_SORTS: [u8; 3] = [sorts::NUMBER, sorts::NAME, sorts::COLON];

// The place of the first mark; the number of tokens if there is none.
// kept: the theorem `PartedAt` and the definition `mark_at` have that number where no mark is.
pub fn first_mark(sorts: &[u8]) -> usize
    ensures { result ≡ mark_at sorts.now }
{
    for (at, sort) in sorts.iter().enumerate() {
        if sorts::SKIP <= *sort {
            return at;
        }
    }
    sorts.len()
}

// Whether a part has no token.
fn is_nothing(part: &[u8]) -> bool
    ensures { result ≡ is_empty part.now }
{
    part.is_empty()
}

// Whether a part is a size or nothing.
fn is_size(part: &[u8]) -> bool
    ensures { result ≡ size_in part.now }
{
    is_nothing(part) || scan::same(part, &SIZE_SORTS)
}

// Whether a part is a name and a colon.
fn is_named(part: &[u8]) -> bool
    ensures { result ≡ named_in part.now }
{
    scan::same(part, &NAMED_SORTS)
}

// Whether a part is a number, a name and a colon.
fn is_numbered(part: &[u8]) -> bool
    ensures { result ≡ numbered_in part.now }
{
    scan::same(part, &NUMBERED_SORTS)
}

// Whether there is nothing before and after a mark.
fn is_alone(before: &[u8], after: &[u8]) -> bool
    ensures { result ≡ alone_in before.now after.now }
{
    is_nothing(before) && is_nothing(after)
}

// Whether there is an element before and after a mark.
fn is_exchange(before: &[u8], after: &[u8]) -> bool
    requires { (length before.now ≤ 32768) × (length after.now ≤ 32768) }
    ensures { result ≡ exchange_in before.now after.now }
{
    read_shapes::is_element(before) && read_shapes::is_element(after)
}

// Whether a part is what a guard waits for: SKIP, or an input.
fn is_event(part: &[u8]) -> bool
    requires { length part.now ≤ 32768 }
    ensures { result ≡ event_in part.now }
{
    let at = first_mark(part);
    if part.len() <= at {
        return false;
    }
    let before = &part[..at];
    let after = &part[at + 1..];
    match part[at] {
        sorts::SKIP => is_alone(before, after),
        sorts::ASKS => is_exchange(before, after),
        _ => false,
    }
}

// Whether a part is what is asked for.
#[tactic(auto, unfolding(crate::specs::Rules::part_is))]
pub fn is_part(asked: Part, part: &[u8]) -> bool
    requires { length part.now ≤ 32768 }
    ensures { result ≡ part_is asked part.now }
{
    match asked {
        Part::Nothing => is_nothing(part),
        Part::Phrase => read_shapes::is_phrase(part),
        Part::Element => read_shapes::is_element(part),
        Part::Size => is_size(part),
        Part::Named => is_named(part),
        Part::Numbered => is_numbered(part),
        Part::Event => is_event(part),
    }
}
