// The class of a line, told from the sorts of its tokens without a tree.
#![tactic(auto)]

ghost use Rattle.std.specs.Prelude.{◌≡◌, ◌≤◌, length};
ghost use Rattle.read_classes.specs.Rules.{rule_at, class_by_mark};
ghost use Rattle.read_classes.specs.LineClasses.{class_by_sorts};

pub mod classes; // classes.rt: the classes by number
mod parts; // parts.rt: the parts of a line

use classes::*;
use parts::Part;
pub use parts::first_mark;
use read_tokens::sorts::NO_TOKEN;

// A sort that parts no line.
const NONE: (Part, Part, u8) = (Part::Nothing, Part::Nothing, NO_LINE);

// By the sort of a line's first mark: what stands before it, what stands after it, and the line's class.
const RULES: [(Part, Part, u8); 28] = [
    (Part::Phrase, Part::Nothing, TEST_LINE), // 0 no mark
    NONE, // 1
    NONE, // 2
    NONE, // 3
    NONE, // 4
    NONE, // 5
    NONE, // 6
    NONE, // 7
    NONE, // 8
    NONE, // 9
    NONE, // 10
    NONE, // 11
    NONE, // 12
    (Part::Nothing, Part::Nothing, LEAF), // 13 SKIP
    (Part::Nothing, Part::Nothing, LEAF), // 14 STOP
    (Part::Nothing, Part::Nothing, MEMBER_LINES), // 15 SEQ
    (Part::Nothing, Part::Nothing, MEMBER_LINES), // 16 PAR
    (Part::Nothing, Part::Nothing, CHOICE_LINES), // 17 IF
    (Part::Nothing, Part::Nothing, OPTION_LINES), // 18 ALT
    (Part::Nothing, Part::Phrase, WHILE_LINE), // 19 WHILE
    (Part::Element, Part::Phrase, LEAF), // 20 `:=`
    (Part::Element, Part::Element, INPUT_LINE), // 21 `?`
    (Part::Element, Part::Phrase, LEAF), // 22 `!`
    (Part::Phrase, Part::Event, GUARD_LINE), // 23 `&`
    (Part::Size, Part::Named, VARIABLE_LINE), // 24 INT
    (Part::Size, Part::Named, OTHER_DECLARATION), // 25 CHAN
    (Part::Nothing, Part::Named, OTHER_DECLARATION), // 26 HOSTIN
    (Part::Nothing, Part::Numbered, OTHER_DECLARATION), // 27 HOSTOUT
];

// The rule of a table for a sort.
fn rule_at(rules: &[(Part, Part, u8)], sort: usize) -> (Part, Part, u8)
    ensures { result ≡ rule_at rules.now sort }
{
    rules.get(sort).copied().unwrap_or(NONE)
}

// The class of a line, by its first mark and what stands before and after it.
fn class_by_mark(sort: u8, before: &[u8], after: &[u8]) -> u8
    requires { (length before.now ≤ 32768) × (length after.now ≤ 32768) }
    ensures { result ≡ class_by_mark sort before.now after.now }
{
    let (asked_before, asked_after, class) = rule_at(&RULES, usize::from(sort));
    if parts::is_part(asked_before, before) && parts::is_part(asked_after, after) {
        class
    } else {
        NO_LINE
    }
}

// The class of a line, from the sorts of its tokens.
pub fn class_of(sorts: &[u8]) -> u8
    requires { length sorts.now ≤ 32768 }
    ensures { result ≡ class_by_sorts sorts.now }
{
    let at = parts::first_mark(sorts);
    if sorts.len() <= at {
        return class_by_mark(NO_TOKEN, sorts, &[]);
    }
    class_by_mark(sorts[at], &sorts[..at], &sorts[at + 1..])
}
