// The rows of a PAR's components.
ghost use Rattle.std.specs.Prelude.{◌≡◌, ◌≤◌, length, take};
ghost use Rattle.meaning.specs.Basics.{is_some};
ghost use Rattle.meaning.specs.Rows.{row_count};
ghost use Rattle.meaning.specs.Tree.{content_at, process_rows};

use base_layout::nodes::{natural, operand};
use check_components::is_link;

// Whether a process stands at row p.
fn is_process(rows: &[i32], p: usize) -> bool
    ensures { result ≡ is_some (content_at rows.now p).process }
{
    p < rows.len() / 4 && base_kinds::is_process(natural(rows, p, 0))
}

// The rows of the processes listed from row m on are put into `members`; tells how many they are.
pub fn members_of<'a>(rows: &'a [i32], m: usize, members: &mut [u16]) -> usize
    requires { (row_count rows.now ≤ 1024) × (length members.old ≡ 1024) }
    ensures { (result ≤ 1024) × (take result members.new ≡ process_rows (content_at rows.now m).listed) }
{
    let mut count = 0;
    let mut at = m;
    while is_link(rows, at) {
        let p = operand(rows, at, 1);
        if is_process(rows, p) {
            members[count] = p as u16;
            count += 1;
        }
        at = operand(rows, at, 2);
    }
    count
}
