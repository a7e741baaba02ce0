// What processes count for, put into bit sets: cells changed and used, channel elements input from and output to.
#![tactic(auto)]

ghost use Rattle.std.specs.Prelude.{◌≡◌, suc, ◌+◌, ◌*◌, ◌<◌, ◌≤◌, length};
ghost use Rattle.meaning.specs.Rows.{row_count, kind_at};
ghost use Rattle.meaning.specs.Tree.{content_at};
ghost use Rattle.meaning.specs.Usage.{of_guard, gather_all};
ghost use Rattle.base_sets.specs.Sets.{with_all, in_sort, set_union, sets_at};
ghost use Rattle.check_components.specs.Marks.{mark_expr, mark_target, mark_input, mark_choices, mark_options, marks, own_marks, all_marks};
ghost use Rattle.check_components.specs.Fields.{target_in, cells_in, input_in, output_in, is_link, NotIfWhileAlt, WalkFacts};
ghost use Rattle.check_components.specs.RowSets.{stored_at, ParsHave, SetsFrom, with_component};

use base_layout::nodes::{natural, operand};
use base_layout::{Name, sink_at, source_at, variable_at};
use base_sets::join;
use check_subscripts::count;

// The sorts: cells changed and used, channel elements input from and output to.
const CHANGED: usize = 0;

const USED: usize = 1;

const INPUT: usize = 2;

const OUTPUT: usize = 3;

// The cells that row r means by the variable of its field a and the subscript of its field b.
fn cells<'a>(rows: &'a [i32], names: &'a [Name], r: usize, sort: usize, sets: &mut [u64])
    requires { (sort < 4) × (r < row_count rows.now) × WalkFacts rows.now names.now }
    ensures { sets.new ≡ with_all sets.old (in_sort sort (cells_in rows.now r)) }
{
    let v = variable_at(names, natural(rows, r, 1));
    count(rows, operand(rows, r, 2), sort, v.first, v.size, sets);
}

// The cells that stand in the expression of row e, subscripts included.
fn expression<'a>(rows: &'a [i32], names: &'a [Name], e: usize, sets: &mut [u64])
    requires { WalkFacts rows.now names.now }
    ensures { sets.new ≡ with_all sets.old (mark_expr (content_at rows.now e).expr) }
{
    if rows.len() / 4 <= e {
        return;
    }
    match natural(rows, e, 0) {
        11 => {
            cells(rows, names, e, USED, sets);
            expression(rows, names, operand(rows, e, 2), sets);
        }
        12 => {
            expression(rows, names, operand(rows, e, 2), sets);
        }
        13 => {
            expression(rows, names, operand(rows, e, 2), sets);
            expression(rows, names, operand(rows, e, 3), sets);
        }
        _ => {}
    }
}

// The target of row r, by its fields a and b: it is changed and used, and its subscript stands in it.
fn target<'a>(rows: &'a [i32], names: &'a [Name], r: usize, sets: &mut [u64])
    requires { (r < row_count rows.now) × WalkFacts rows.now names.now }
    ensures { sets.new ≡ with_all sets.old (mark_target (target_in rows.now r)) }
{
    cells(rows, names, r, CHANGED, sets);
    cells(rows, names, r, USED, sets);
    expression(rows, names, operand(rows, r, 2), sets);
}

// The target that stands at row c, if one does.
fn target_at<'a>(rows: &'a [i32], names: &'a [Name], c: usize, sets: &mut [u64])
    requires { WalkFacts rows.now names.now }
    ensures { sets.new ≡ with_all sets.old (mark_target (content_at rows.now c).target) }
{
    if c < rows.len() / 4 && natural(rows, c, 0) == 11 {
        target(rows, names, c, sets);
    }
}

// The input of row r: its target, its subscript, and the elements of its channel.
fn of_input<'a>(rows: &'a [i32], names: &'a [Name], r: usize, sets: &mut [u64])
    requires { (r < row_count rows.now) × WalkFacts rows.now names.now }
    ensures { sets.new ≡ with_all sets.old (mark_input (input_in rows.now r)) }
{
    target_at(rows, names, operand(rows, r, 3), sets);
    let e = operand(rows, r, 2);
    expression(rows, names, e, sets);
    let c = source_at(names, natural(rows, r, 1));
    count(rows, e, INPUT, c.first, c.size, sets);
}

// The output of row r: the elements of its channel, its subscript, and its expression.
fn of_output<'a>(rows: &'a [i32], names: &'a [Name], r: usize, sets: &mut [u64])
    requires { (r < row_count rows.now) × WalkFacts rows.now names.now }
    ensures { sets.new ≡ with_all sets.old (marks (output_in rows.now r)) }
{
    let at = operand(rows, r, 2);
    let c = sink_at(names, natural(rows, r, 1));
    count(rows, at, OUTPUT, c.first, c.size, sets);
    expression(rows, names, at, sets);
    expression(rows, names, operand(rows, r, 3), sets);
}

// The booleans of the choices from row m on.
// kept: this walk, that over options and that over members stay apart, since a common one needs a closure that changes the sets and is no shorter.
fn choices<'a>(rows: &'a [i32], names: &'a [Name], m: usize, sets: &mut [u64])
    requires { WalkFacts rows.now names.now }
    ensures { sets.new ≡ with_all sets.old (mark_choices (content_at rows.now m).tests) }
{
    if m < rows.len() / 4 && natural(rows, m, 0) == 41 {
        expression(rows, names, operand(rows, m, 3), sets);
        choices(rows, names, operand(rows, m, 2), sets);
    }
}

// The input of the guard of row g, if it has one.
fn guard_input<'a>(rows: &'a [i32], names: &'a [Name], g: usize, sets: &mut [u64])
    requires { WalkFacts rows.now names.now }
    ensures { sets.new ≡ with_all sets.old (of_guard mark_input (content_at rows.now g).guard.input) }
{
    if rows.len() / 4 <= g {
        return;
    }
    match natural(rows, g, 0) {
        23 => {
            of_input(rows, names, g, sets);
        }
        43 => {
            guard_input(rows, names, operand(rows, g, 2), sets);
        }
        _ => {}
    }
}

// The boolean of the guard of row g.
fn guard_boolean<'a>(rows: &'a [i32], names: &'a [Name], g: usize, sets: &mut [u64])
    requires { WalkFacts rows.now names.now }
    ensures { sets.new ≡ with_all sets.old (mark_expr (content_at rows.now g).guard.boolean) }
{
    if g < rows.len() / 4 && natural(rows, g, 0) == 43 {
        expression(rows, names, operand(rows, g, 1), sets);
    }
}

// The guards of the options from row m on.
fn options<'a>(rows: &'a [i32], names: &'a [Name], m: usize, sets: &mut [u64])
    requires { WalkFacts rows.now names.now }
    ensures { sets.new ≡ with_all sets.old (mark_options (content_at rows.now m).options) }
{
    if m < rows.len() / 4 && natural(rows, m, 0) == 42 {
        let g = operand(rows, m, 3);
        guard_boolean(rows, names, g, sets);
        guard_input(rows, names, g, sets);
        options(rows, names, operand(rows, m, 2), sets);
    }
}

// What the assignment, input or output at row r counts for; nothing if another row stands there that is no IF, WHILE or ALT.
fn step<'a>(rows: &'a [i32], names: &'a [Name], r: usize, sets: &mut [u64])
    requires { (r < row_count rows.now) × WalkFacts rows.now names.now × NotIfWhileAlt rows.now r }
    ensures { sets.new ≡ with_all sets.old (own_marks (content_at rows.now r).process) }
{
    match natural(rows, r, 0) {
        22 => {
            target(rows, names, r, sets);
            expression(rows, names, operand(rows, r, 3), sets);
        }
        23 => {
            of_input(rows, names, r, sets);
        }
        24 => {
            of_output(rows, names, r, sets);
        }
        _ => {}
    }
}

// What the process of row r does by itself, if one stands there.
fn action<'a>(rows: &'a [i32], names: &'a [Name], r: usize, sets: &mut [u64])
    requires { (r < row_count rows.now) × WalkFacts rows.now names.now }
    ensures { sets.new ≡ with_all sets.old (own_marks (content_at rows.now r).process) }
{
    match natural(rows, r, 0) {
        32 => {
            choices(rows, names, operand(rows, r, 1), sets);
        }
        33 => {
            expression(rows, names, operand(rows, r, 1), sets);
        }
        34 => {
            options(rows, names, operand(rows, r, 1), sets);
        }
        _ => {
            step(rows, names, r, sets);
        }
    }
}

// Whether row m is a link to members.
pub fn is_link(rows: &[i32], m: usize) -> bool
    ensures { result ≡ is_link rows.now m }
{
    m < rows.len() / 4 && (40..=42).contains(&natural(rows, m, 0))
}

// The sets of row r are put into `own`.
fn join_row<'a>(sets: &'a [u64], r: usize, own: &mut [u64])
    requires { (16 * r + 16 ≤ length sets.now) × (length own.old ≡ 16) }
    ensures { own.new ≡ set_union own.old (sets_at sets.now r) }
{
    let at = 16 * r;
    let end = at + 16;
    join(own, &sets[at..end]);
}

// What `own` holds becomes the sets of row r.
fn store<'a>(own: &'a [u64], r: usize, sets: &mut [u64])
    requires { (16 * r + 16 ≤ length sets.old) × (length own.now ≡ 16) }
    ensures { sets.new ≡ stored_at sets.old r own.now }
{
    let at = 16 * r;
    let end = at + 16;
    sets[at..end].copy_from_slice(own);
}

// The walk over a process, if one stands at row r: its own action, and then its members. The sets of a PAR are there already.
#[cycle(walk_members_walk_process)]
fn walk_process<'a>(rows: &'a [i32], names: &'a [Name], sets: &'a [u64], r: usize, own: &mut [u64])
    requires { WalkFacts rows.now names.now × ParsHave rows.now sets.now r × (length own.old ≡ 16) }
    ensures { own.new ≡ with_all own.old (all_marks (content_at rows.now r).process) }
{
    if rows.len() / 4 <= r {
        return;
    }
    action(rows, names, r, own);
    match natural(rows, r, 0) {
        31 => {
            join_row(sets, r, own);
        }
        30 | 32 | 34 => {
            walk_members(rows, names, sets, operand(rows, r, 1), own);
        }
        33 | 35 => {
            walk_process(rows, names, sets, operand(rows, r, 2), own);
        }
        _ => {}
    }
}

// The walk over the member list at row m.
#[cycle(walk_members_walk_process)]
fn walk_members<'a>(rows: &'a [i32], names: &'a [Name], sets: &'a [u64], m: usize, own: &mut [u64])
    requires { WalkFacts rows.now names.now × ParsHave rows.now sets.now m × (length own.old ≡ 16) }
    ensures { own.new ≡ with_all own.old (gather_all (content_at rows.now m).listed marks) }
{
    if is_link(rows, m) {
        walk_process(rows, names, sets, operand(rows, m, 1), own);
        walk_members(rows, names, sets, operand(rows, m, 2), own);
    }
}

// The sets of the component at row p, if a process stands there; they are put into those of its PAR too.
fn gather_component<'a>(
    rows: &'a [i32],
    names: &'a [Name],
    p: usize,
    all: &mut [u64],
    sets: &mut [u64],
)
    requires { WalkFacts rows.now names.now × ParsHave rows.now sets.old p × (length all.old ≡ 16) }
    ensures { (all.new ≡ with_all all.old (all_marks (content_at rows.now p).process)) × (sets.new ≡ with_component rows.now sets.old p) }
{
    let mut own = [0u64; 16];
    walk_process(rows, names, sets, p, &mut own);
    join(all, &own);
    if p < rows.len() / 4 {
        store(&own, p, sets);
    }
}

// The sets of each component of the PAR at row r, and its own, which are those of all of them.
fn gather_par<'a>(rows: &'a [i32], names: &'a [Name], r: usize, sets: &mut [u64])
    requires { WalkFacts rows.now names.now × (r < row_count rows.now) × (kind_at rows.now r ≡ 31) × SetsFrom rows.now sets.old (suc r) }
    ensures { SetsFrom rows.now sets.new r }
{
    let mut all = [0u64; 16];
    let mut at = operand(rows, r, 1);
    while is_link(rows, at) {
        gather_component(rows, names, operand(rows, at, 1), &mut all, sets);
        at = operand(rows, at, 2);
    }
    store(&all, r, sets);
}

// The sets of every PAR and of its components, each gathered once: from the last row up, since references go to higher rows.
pub fn gather_all<'a>(rows: &'a [i32], names: &'a [Name], sets: &mut [u64])
    requires { WalkFacts rows.now names.now × (length sets.old ≡ 16 * row_count rows.now) }
    ensures { SetsFrom rows.now sets.new 0 }
{
    for r in (0..rows.len() / 4).rev() {
        if natural(rows, r, 0) == 31 {
            gather_par(rows, names, r, sets);
        }
    }
}
