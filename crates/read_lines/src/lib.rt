// The lines of a text, one after the other, their tokens listed.
#![tactic(auto)]

ghost use Rattle.std.specs.Prelude.{◌≡◌, true, ◌&&◌, ◌≤◌, ◌<◌, length, drop};
ghost use Rattle.grammar.specs.Tokens.{is_word_byte};
ghost use Rattle.read_lines.specs.LineParts.{indent_of, misplaced, held_value, ended_at};
ghost use Rattle.read_lines.specs.LineRead.{LineRead};

use read_tokens::sorts;

// What is listed of a line that is spelt: its level, where its tokens end in the lists, and where the next line begins.
#[derive(Clone, Copy)]
pub struct Listed {
    pub level: usize,
    pub count: usize,
    pub next: usize,
}

// How many pairs of spaces stand at a place.
fn indent(text: &[u8], at: usize) -> usize
    ensures { result ≡ indent_of (drop at text.now) }
{
    (read_scan::blank_end(text, at) - at) / 2
}

// Whether two bytes are both of words or numbers.
fn are_word_bytes(before: u8, last: u8) -> bool
    ensures { result ≡ (is_word_byte before && is_word_byte last) }
{
    read_tokens::is_word_byte(before) && read_tokens::is_word_byte(last)
}

// Whether a token stands where it may not: after a space if it is the first, directly after a word or number if it is one.
fn is_misplaced(text: &[u8], begun: bool, at: usize, from: usize, to: usize) -> bool
    requires { (begun ≡ true → 0 < at) × (from < to) × (at ≤ from) × (to ≤ length text.now) }
    ensures { result ≡ misplaced text.now begun at from to }
{
    if at < from {
        return !begun;
    }
    begun && are_word_bytes(text[at - 1], text[to - 1])
}

// The number that is listed of a token: of a name where it stands and how many bytes it has.
fn held_value(sort: u8, value: i32, from: usize, to: usize) -> i32
    requires { (from ≤ to) × (to ≤ 32768) }
    ensures { result ≡ held_value sort value from to }
{
    if sort == sorts::NAME {
        (32 * from + (to - from)) as i32
    } else {
        value
    }
}

// Whether a line is ended at a place: it has tokens, and its line feed is there.
fn is_ended(text: &[u8], begun: bool, at: usize) -> bool
    requires { at < length text.now }
    ensures { result ≡ ended_at text.now begun at }
{
    begun && text[at] == b'\n'
}

// Lists the tokens of the line at a place, from a place of the lists on; none if the line is not spelt.
pub fn list_line(
    text: &[u8],
    at: usize,
    first: usize,
    sorts: &mut [u8],
    values: &mut [i32],
) -> Option<Listed>
    requires { (at < length text.now) × (length text.now ≤ 32768) × (first ≤ at) × (length text.now ≤ length sorts.old) × (length text.now ≤ length values.old) }
    ensures { LineRead text.now at first sorts.old values.old result sorts.new values.new }
{
    let level = indent(text, at);
    let mut place = at + 2 * level;
    let mut count = first;
    // kept: the place goes on by the bytes of a token, not by one
    while place < text.len() {
        let next = read_scan::next_token(text, place);
        let Some(token) = next.token else {
            let line = Listed {
                level,
                count,
                next: place + 1,
            };
            return is_ended(text, first < count, place).then_some(line);
        };
        if is_misplaced(text, first < count, place, next.from, next.to) {
            return None;
        }
        sorts[count] = token.sort;
        values[count] = held_value(token.sort, token.value, next.from, next.to);
        count += 1;
        place = next.to;
    }
    None
}
