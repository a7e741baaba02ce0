// The parent of each row, noted once for a table.
ghost use Rattle.std.specs.Prelude.{◌≡◌, ◌<◌, ◌≤◌, length};
ghost use Rattle.std.proofs.Math.Option.{none};
ghost use Rattle.meaning.specs.Rows.{row_count};
ghost use Rattle.meaning.specs.Tree.{content_at};
ghost use Rattle.meaning.specs.Answers.{check};
ghost use Rattle.run_parents.specs.Parents.{in_table, parent_notes, next_notes, where_free, ParentsNumbered, NextOf, NextIs, ProcessNoted, ProcessesNoted, RowNoted};

use crate::shape::{Shape, is_process, shape_at};

// Link t as a note; past the table, where nothing stands, the row after the last.
fn link_note(rows: &[i32], t: usize) -> u16
    requires few { row_count rows.now ≤ 1024 }
    ensures { result ≡ in_table rows.now t }
{
    if t < rows.len() / 4 {
        return t as u16;
    }
    (rows.len() / 4) as u16
}

// Notes the parent of row p, and the row from which the members after it follow, where there is no note yet.
fn note_parent(parents: &mut [u16], nexts: &mut [u16], p: usize, note: u16, next: u16)
    requires room { (p < length parents.old) × (p < length nexts.old) }
    ensures { (parents.new ≡ where_free parents.old p parents.old note) × (nexts.new ≡ where_free parents.old p nexts.old next) }
{
    if parents[p] == 0 {
        parents[p] = note;
        nexts[p] = next;
    }
}

// The same, if a process stands at row p. The members of link t are after it.
fn note_member(rows: &[i32], p: usize, t: usize, note: u16, parents: &mut [u16], nexts: &mut [u16])
    requires few { row_count rows.now ≤ 1024 }
    requires room { (row_count rows.now ≤ length parents.old) × (row_count rows.now ≤ length nexts.old) }
    requires real { 0 < note }
    ensures noted { ProcessNoted rows.now p note parents.old parents.new }
    ensures numbers { ParentsNumbered (NextIs rows.now p t) parents.old nexts.old parents.new nexts.new }
{
    if is_process(rows, p) {
        let next = link_note(rows, t);
        note_parent(parents, nexts, p, note, next);
    }
}

// Notes the parent of every member from link m on.
fn note_members(rows: &[i32], m: usize, note: u16, parents: &mut [u16], nexts: &mut [u16])
    requires few { row_count rows.now ≤ 1024 }
    requires room { (row_count rows.now ≤ length parents.old) × (row_count rows.now ≤ length nexts.old) }
    requires real { 0 < note }
    ensures noted { ProcessesNoted (content_at rows.now m).listed note parents.old parents.new }
    ensures numbers { ParentsNumbered (NextOf rows.now) parents.old nexts.old parents.new nexts.new }
{
    let mut t = m;
    // kept: the next link is read from the row; no index is counted
    while t < rows.len() / 4 {
        let s = shape_at(rows, t);
        match s {
            Shape::Ending(_, _) => {
                return;
            }
            Shape::Single(_) => {
                return;
            }
            Shape::Link(p, next) => {
                note_member(rows, p, next, note, parents, nexts);
                t = next;
            }
            Shape::Neither => {
                return;
            }
        }
    }
}

// Notes row r, as one more than its number, at each member of its process.
fn note_row(rows: &[i32], r: usize, parents: &mut [u16], nexts: &mut [u16])
    requires few { row_count rows.now ≤ 1024 }
    requires room { (row_count rows.now ≤ length parents.old) × (row_count rows.now ≤ length nexts.old) }
    requires inside { r < row_count rows.now }
    ensures noted { RowNoted rows.now r parents.old parents.new }
    ensures numbers { ParentsNumbered (NextOf rows.now) parents.old nexts.old parents.new nexts.new }
{
    let s = shape_at(rows, r);
    match s {
        Shape::Ending(_, first) => {
            note_members(rows, first, (r + 1) as u16, parents, nexts);
        }
        Shape::Single(process) => {
            note_member(rows, process, rows.len(), (r + 1) as u16, parents, nexts);
        }
        Shape::Link(_, _) => {}
        Shape::Neither => {}
    }
}

// Notes the parent of each row: one more than the row of the process that it is a member of, or 0; and where there is one, the link to the members after the row.
pub fn note_parents(rows: &[i32], parents: &mut [u16], nexts: &mut [u16])
    requires accepted { check rows.now ≡ none }
    requires room { (row_count rows.now ≤ length parents.old) × (row_count rows.now ≤ length nexts.old) }
    ensures notes { parents.new ≡ parent_notes rows.now (length parents.old) }
    ensures links { nexts.new ≡ next_notes rows.now nexts.old }
{
    parents.fill(0);
    for r in 0..rows.len() / 4 {
        note_row(rows, r, parents, nexts);
    }
}
