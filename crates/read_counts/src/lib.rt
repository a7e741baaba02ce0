// How many rows the lines of a text make, told from their kinds and the sorts of their tokens.
#![tactic(auto)]

ghost use Rattle.std.specs.Prelude.{◌≡◌, ◌≤◌, length};
ghost use Rattle.std.proofs.lemmas.List.Edits.{sets};
ghost use Rattle.read_counts.specs.TokenRows.{sort_rows, sort_less, rows_by_sorts, listed_at, block_at, declaration_rows, rows_by_kind};
ghost use Rattle.read_counts.specs.ListedRows.{Spans, rows_listed, owns_listed};

use read_classes::classes;
use read_levels::expectations;
use read_tokens::sorts;

// The rows that a token of a sort adds, each name as if it were bare.
fn sort_rows(sort: u8) -> u32
    ensures { result ≡ sort_rows sort }
{
    match sort {
        sorts::NAME => 2,
        sorts::NUMBER..=sorts::OR | sorts::SKIP..=sorts::WHILE | sorts::AMPERSAND => 1,
        _ => 0,
    }
}

// The rows that it takes away: the name before a subscript is not bare.
fn sort_less(sort: u8) -> u32
    ensures { result ≡ sort_less sort }
{
    u32::from(sort == sorts::SQUARE_OPEN)
}

// The rows of the tokens of a line.
fn token_rows(sorts: &[u8]) -> u32
    requires { length sorts.now ≤ 32768 }
    ensures { result ≡ rows_by_sorts sorts.now }
{
    let mut rows: u32 = 0;
    let mut less: u32 = 0;
    for sort in sorts {
        rows += sort_rows(*sort);
        less += sort_less(*sort);
    }
    rows.saturating_sub(less)
}

// The row of a member, choice or option, by what is expected.
fn listed_rows(expected: u8) -> u32
    ensures { result ≡ listed_at expected }
{
    match expected {
        expectations::NOTHING | expectations::ONE_PROCESS | expectations::HEADS => 0,
        _ => 1,
    }
}

// The row of a declaration's block, by what is expected.
fn block_rows(expected: u8) -> u32
    ensures { result ≡ block_at expected }
{
    u32::from(expected != expectations::HEADS)
}

// The row of a line's declaration, by its kind.
fn declaration_rows(kind: u8) -> u32
    ensures { result ≡ declaration_rows kind }
{
    u32::from(kind % 16 <= classes::OTHER_DECLARATION)
}

// The rows that a line makes in the tree of processes, by its kind and the sorts of its tokens.
pub fn line_rows(kind: u8, sorts: &[u8]) -> u32
    requires { length sorts.now ≤ 32768 }
    ensures { result ≡ rows_by_kind kind sorts.now }
{
    let expected = kind / 16;
    if kind % 16 <= classes::OTHER_DECLARATION {
        block_rows(expected)
    } else {
        listed_rows(expected) + token_rows(sorts)
    }
}

// The rows of all lines, with those of declarations.
pub fn count_rows(kinds: &[u8], count: usize, ends: &[u16], sorts: &[u8]) -> u32
    requires { Spans count kinds.now ends.now sorts.now }
    ensures { result ≡ rows_listed count kinds.now ends.now sorts.now }
{
    let mut rows: u32 = 0;
    let mut first: usize = 0;
    for line in 0..count {
        let kind = kinds[line];
        let end = ends[line] as usize;
        rows += declaration_rows(kind);
        rows += line_rows(kind, &sorts[first..end]);
        first = end;
    }
    rows
}

// The rows that each line makes in the tree of processes.
pub fn own_rows(kinds: &[u8], count: usize, ends: &[u16], sorts: &[u8], owns: &mut [usize; 1024])
    requires { Spans count kinds.now ends.now sorts.now × (count ≤ 1024) }
    ensures { owns.new ≡ sets owns.old 0 (owns_listed count kinds.now ends.now sorts.now) }
{
    let mut first: usize = 0;
    for line in 0..count {
        let end = ends[line] as usize;
        owns[line] = line_rows(kinds[line], &sorts[first..end]) as usize;
        first = end;
    }
}
