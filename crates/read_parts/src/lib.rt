// The rows of the parts of a line, from its listed tokens.
#![tactic(auto)]

ghost use Rattle.std.specs.Prelude.{◌≡◌, [], ◌∷◌, suc, ◌+◌, ◌*◌, ◌≤◌, ◌<◌, pos, length, get_or, set};
ghost use Rattle.base_top_down.specs.Forms.{number};
ghost use Rattle.grammar.specs.TextRows.{block_form};
ghost use Rattle.read_tokens.specs.Held.{tokens_resolved};
ghost use Rattle.read_resolved.specs.Resolved.{row_names};
ghost use Rattle.read_classes.specs.Parts.{part_at_mark, parted_there};
ghost use Rattle.read_expressions.specs.Overlay.{overlay};
ghost use Rattle.read_expressions.specs.Expressions.{Scratch, ScratchKept};
ghost use Rattle.read_layout.specs.Layout.{link_to};
ghost use Rattle.read_parts.specs.PartForms.{with_form, Laid, SortsHeld, declaration_listed, exchange_form, while_form, process_by, event_form, guarded_form, guard_by, ExchangeWritable, WhileWritable, ProcessWritable, EventWritable, GuardedWritable, GuardWritable, BlockWritable};

use read_tokens::sorts;

// A reference to row n if rows stand there, else to none.
pub fn link_to(size: usize, n: usize) -> i32
    requires { n ≤ 2048 }
    ensures { result ≡ link_to size n }
{
    if size == 0 { -1 } else { n as i32 }
}

// The sort at a place, that of no token past the end.
fn sort_at(sorts: &[u8], at: usize) -> u8
    ensures { result ≡ get_or sorts.now at 0 }
{
    sorts.get(at).copied().unwrap_or(sorts::NO_TOKEN)
}

// Writes row n of a process that is a word, with its field a; how many rows stand then up to its end.
fn write_word(kind: i32, a: i32, n: usize, rows: &mut [i32]) -> usize
    requires { (n < 1024) × (4 * n + 4 ≤ length rows.old) }
    ensures { (result ≡ n + 1) × (rows.new ≡ overlay rows.old (4 * n) (kind ∷ a ∷ pos 0 ∷ pos 0 ∷ [])) }
{
    read_expressions::write_row(rows, n, kind, a, 0, 0);
    n + 1
}

// Stores a kind and a field c in row n.
fn amend(rows: &mut [i32], n: usize, kind: u8, c: usize)
    requires { (c ≤ 1024) × (4 * n + 4 ≤ length rows.old) × (n < 1024) }
    ensures { rows.new ≡ set (set rows.old (4 * n) (pos kind)) (4 * n + 3) (pos c) }
{
    let start = 4 * n;
    rows[start] = kind as i32;
    rows[start + 3] = c as i32;
}

// Writes the rows of the element before a mark and of what stands after it, from row n on; the element's row gets a kind, and field c refers to the second.
fn write_exchange(
    kind: u8,
    sorts: &[u8],
    values: &[i32],
    at: usize,
    n: usize,
    marks: &mut [u8],
    stack: &mut [u16],
    rows: &mut [i32],
) -> usize
    requires { (at < length sorts.now) × ExchangeWritable kind (parted_there (tokens_resolved sorts.now values.now) at) n rows.old × Scratch sorts.now values.now marks.old stack.old }
    ensures { ScratchKept marks.old stack.old marks.new stack.new × Laid (λ _. exchange_form kind (parted_there (tokens_resolved sorts.now values.now) at)) n 0 result rows.old rows.new }
{
    let middle = read_expressions::write_phrase(&sorts[..at], &values[..at], n, marks, stack, rows);
    let end = read_expressions::write_phrase(
        &sorts[at + 1..],
        &values[at + 1..],
        middle,
        marks,
        stack,
        rows,
    );
    amend(rows, n, kind, middle);
    end
}

// The same of WHILE and its expression; so many rows stand beneath it.
fn write_while(
    sorts: &[u8],
    values: &[i32],
    at: usize,
    n: usize,
    beneath: usize,
    marks: &mut [u8],
    stack: &mut [u16],
    rows: &mut [i32],
) -> usize
    requires { (at < length sorts.now) × WhileWritable (parted_there (tokens_resolved sorts.now values.now) at) n rows.old × Scratch sorts.now values.now marks.old stack.old }
    ensures { ScratchKept marks.old stack.old marks.new stack.new × Laid (while_form (parted_there (tokens_resolved sorts.now values.now) at)) n beneath result rows.old rows.new }
{
    let end = read_expressions::write_phrase(
        &sorts[at + 1..],
        &values[at + 1..],
        n + 1,
        marks,
        stack,
        rows,
    );
    read_expressions::write_row(rows, n, 33, (n + 1) as i32, link_to(beneath, end), 0);
    end
}

// The same of the process that a line is, by its first mark.
pub fn write_process(
    sorts: &[u8],
    values: &[i32],
    n: usize,
    beneath: usize,
    marks: &mut [u8],
    stack: &mut [u16],
    rows: &mut [i32],
) -> usize
    requires { SortsHeld sorts.now values.now × ProcessWritable (part_at_mark (tokens_resolved sorts.now values.now)) n beneath rows.old × Scratch sorts.now values.now marks.old stack.old }
    ensures { ScratchKept marks.old stack.old marks.new stack.new × Laid (process_by (part_at_mark (tokens_resolved sorts.now values.now))) n beneath result rows.old rows.new }
{
    let at = read_classes::first_mark(sorts);
    let sort = sort_at(sorts, at);
    match sort {
        sorts::SKIP => write_word(21, 0, n, rows),
        sorts::STOP => write_word(20, 0, n, rows),
        sorts::SEQ => write_word(30, link_to(beneath, n + 1), n, rows),
        sorts::PAR => write_word(31, link_to(beneath, n + 1), n, rows),
        sorts::IF => write_word(32, link_to(beneath, n + 1), n, rows),
        sorts::ALT => write_word(34, link_to(beneath, n + 1), n, rows),
        sorts::WHILE => write_while(sorts, values, at, n, beneath, marks, stack, rows),
        sorts::BECOMES => write_exchange(22, sorts, values, at, n, marks, stack, rows),
        sorts::ASKS => write_exchange(23, sorts, values, at, n, marks, stack, rows),
        sorts::TELLS => write_exchange(24, sorts, values, at, n, marks, stack, rows),
        _ => n,
    }
}

// Writes the rows of what a guard waits for, from row n on.
fn write_event(
    sorts: &[u8],
    values: &[i32],
    n: usize,
    marks: &mut [u8],
    stack: &mut [u16],
    rows: &mut [i32],
)
    requires { SortsHeld sorts.now values.now × EventWritable (part_at_mark (tokens_resolved sorts.now values.now)) n rows.old × Scratch sorts.now values.now marks.old stack.old }
    ensures { ScratchKept marks.old stack.old marks.new stack.new × (rows.new ≡ with_form (event_form (part_at_mark (tokens_resolved sorts.now values.now))) n rows.old) }
{
    let at = read_classes::first_mark(sorts);
    if sort_at(sorts, at) == sorts::ASKS {
        write_exchange(23, sorts, values, at, n, marks, stack, rows);
    } else {
        read_expressions::write_row(rows, n, 21, 0, 0, 0);
    }
}

// The same of the expression before a mark and what is waited for where it holds.
fn write_guarded(
    sorts: &[u8],
    values: &[i32],
    at: usize,
    n: usize,
    marks: &mut [u8],
    stack: &mut [u16],
    rows: &mut [i32],
)
    requires { (at < length sorts.now) × SortsHeld sorts.now values.now × GuardedWritable (parted_there (tokens_resolved sorts.now values.now) at) n rows.old × Scratch sorts.now values.now marks.old stack.old }
    ensures { ScratchKept marks.old stack.old marks.new stack.new × (rows.new ≡ with_form (guarded_form (parted_there (tokens_resolved sorts.now values.now) at)) n rows.old) }
{
    let middle = read_expressions::write_phrase(
        &sorts[..at],
        &values[..at],
        n + 1,
        marks,
        stack,
        rows,
    );
    write_event(
        &sorts[at + 1..],
        &values[at + 1..],
        middle,
        marks,
        stack,
        rows,
    );
    read_expressions::write_row(rows, n, 43, (n + 1) as i32, middle as i32, 0);
}

// The same of the guard that a line is.
pub fn write_guard(
    sorts: &[u8],
    values: &[i32],
    n: usize,
    marks: &mut [u8],
    stack: &mut [u16],
    rows: &mut [i32],
)
    requires { SortsHeld sorts.now values.now × GuardWritable (part_at_mark (tokens_resolved sorts.now values.now)) n rows.old × Scratch sorts.now values.now marks.old stack.old }
    ensures { ScratchKept marks.old stack.old marks.new stack.new × (rows.new ≡ with_form (guard_by (part_at_mark (tokens_resolved sorts.now values.now))) n rows.old) }
{
    let at = read_classes::first_mark(sorts);
    if sort_at(sorts, at) == sorts::AMPERSAND {
        write_guarded(sorts, values, at, n, marks, stack, rows);
    } else {
        write_event(sorts, values, n, marks, stack, rows);
    }
}

// Writes row n of the block that a declaration begins; its process is to stand at the next row.
pub fn write_block(sorts: &[u8], values: &[i32], n: usize, rows: &mut [i32])
    requires { (length sorts.now ≡ length values.now) × BlockWritable (tokens_resolved sorts.now values.now) n rows.old }
    ensures { rows.new ≡ with_form (block_form row_names (declaration_listed (tokens_resolved sorts.now values.now)) (number (pos (suc n)))) n rows.old }
{
    let name = read_declared::first_of(sorts, sorts::NAME);
    read_expressions::write_row(rows, n, 35, values[name], (n + 1) as i32, 0);
}
