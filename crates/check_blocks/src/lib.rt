// Refusal 14: a block as root, a second block of a name, and a name outside its block. Whether a row is beneath its block is read off their top-down numbers.
#![tactic(auto)]

ghost use Rattle.std.specs.Prelude.{◌≡◌, ◌<◌, eqb};
ghost use Rattle.meaning.specs.Basics.{among};
ghost use Rattle.meaning.specs.Rows.{row_count, natural_at, kind_at};
ghost use Rattle.meaning.specs.Declarations.{declarations};
ghost use Rattle.meaning.specs.Verdict.{rows_under, block_of, some_not, block_fault_at, block_fault};
ghost use Rattle.meaning.specs.Answers.{verdict_of};
ghost use Rattle.base_top_down.specs.New.{FormPassed, Sizes, Numbers};
ghost use Rattle.check_blocks.specs.Blocks.{has_block, FromRoot, NamesVariable, BlocksNoted, with_row, BlockFacts};

use meaning::Verdict;

// Whether there is a block.
fn has_block(rows: &[i32]) -> bool
    ensures { result ≡ has_block rows.now }
{
    let n = base_rows::row_count(rows);
    (0..n).any(|r| base_rows::kind(rows, r) == 35)
}

// Notes row r if it is a block and no lower row is noted for its name.
fn note_row(rows: &[i32], r: usize, blocks: &mut [Option<u16>; 1024])
    requires { FormPassed rows.now × (r < row_count rows.now) }
    ensures { blocks.new ≡ with_row rows.now r blocks.old }
{
    if base_rows::kind(rows, r) == 35 {
        let v = base_rows::natural_field(rows, r, 1) as usize;
        if blocks[v].is_none() {
            blocks[v] = Some(r as u16);
        }
    }
}

// Notes the lowest block of each name.
fn note_blocks(rows: &[i32], blocks: &mut [Option<u16>; 1024])
    requires { FormPassed rows.now × BlocksNoted rows.now 0 blocks.old }
    ensures { BlocksNoted rows.now (row_count rows.now) blocks.new }
{
    let n = base_rows::row_count(rows);
    for r in 0..n {
        note_row(rows, r, blocks);
    }
}

// Whether row r is beneath row k: its number is after that of row k, within the rows of row k's form.
fn beneath<'a>(
    rows: &'a [i32],
    numbers: &'a [u32; 1024],
    sizes: &'a [u32; 1024],
    k: usize,
    r: usize,
) -> bool
    requires { FormPassed rows.now × (Numbers rows.now numbers.now × (Sizes rows.now (declarations rows.now) sizes.now × (FromRoot rows.now k × FromRoot rows.now r))) }
    ensures { result ≡ among r (rows_under rows.now k) }
{
    let first = numbers[k];
    let number = numbers[r];
    first < number && number - first < sizes[k]
}

// Whether row r, which names a variable, is outside the lowest block of the name.
fn outside<'a>(
    rows: &'a [i32],
    blocks: &'a [Option<u16>; 1024],
    numbers: &'a [u32; 1024],
    sizes: &'a [u32; 1024],
    r: usize,
) -> bool
    requires { BlockFacts rows.now blocks.now numbers.now sizes.now × ((r < row_count rows.now) × NamesVariable rows.now r) }
    ensures { result ≡ some_not (λ k. among r (rows_under rows.now k)) (block_of rows.now (natural_at rows.now r 1)) }
{
    let Some(k) = blocks[base_rows::natural_field(rows, r, 1) as usize] else {
        return false;
    };
    !beneath(rows, numbers, sizes, k as usize, r)
}

// Whether row r, a block, is not the lowest of its name.
fn is_second<'a>(rows: &'a [i32], blocks: &'a [Option<u16>; 1024], r: usize) -> bool
    requires { FormPassed rows.now × (BlocksNoted rows.now (row_count rows.now) blocks.now × ((r < row_count rows.now) × (kind_at rows.now r ≡ 35))) }
    ensures { result ≡ some_not (λ k. eqb k r) (block_of rows.now (natural_at rows.now r 1)) }
{
    let Some(k) = blocks[base_rows::natural_field(rows, r, 1) as usize] else {
        return false;
    };
    k as usize != r
}

// Whether row r, of d declarations, is at fault.
fn block_fault_at<'a>(
    rows: &'a [i32],
    d: usize,
    blocks: &'a [Option<u16>; 1024],
    numbers: &'a [u32; 1024],
    sizes: &'a [u32; 1024],
    r: usize,
) -> bool
    requires { BlockFacts rows.now blocks.now numbers.now sizes.now × (r < row_count rows.now) }
    ensures { result ≡ block_fault_at rows.now d r }
{
    match base_rows::kind(rows, r) {
        11 | 22 => outside(rows, blocks, numbers, sizes, r),
        35 => r == d || is_second(rows, blocks, r),
        _ => false,
    }
}

// The lowest row that is.
fn first_block_fault<'a>(
    rows: &'a [i32],
    blocks: &'a [Option<u16>; 1024],
    numbers: &'a [u32; 1024],
    sizes: &'a [u32; 1024],
) -> Verdict
    requires { BlockFacts rows.now blocks.now numbers.now sizes.now }
    ensures { result ≡ verdict_of (block_fault rows.now) }
{
    let d = base_rows::declarations(rows);
    let n = base_rows::row_count(rows);
    for r in 0..n {
        if block_fault_at(rows, d, blocks, numbers, sizes, r) {
            return Verdict::Rejected(14, r as u32);
        }
    }
    Verdict::Accepted
}

// The refusal of a table that has blocks.
fn fault_of_blocks(rows: &[i32]) -> Verdict
    requires { FormPassed rows.now }
    ensures { result ≡ verdict_of (block_fault rows.now) }
{
    let mut sizes = [0u32; 1024];
    base_numbering::measure(rows, &mut sizes);
    let mut numbers = [0u32; 1024];
    base_numbering::number(rows, &sizes, &mut numbers);
    let mut blocks = [None; 1024];
    note_blocks(rows, &mut blocks);
    first_block_fault(rows, &blocks, &numbers, &sizes)
}

// The refusal of a table in which the stages 3, 4 and 5 find nothing. One without blocks is not numbered.
pub fn block_fault(rows: &[i32]) -> Verdict
    requires { FormPassed rows.now }
    ensures { result ≡ verdict_of (block_fault rows.now) }
{
    if has_block(rows) {
        fault_of_blocks(rows)
    } else {
        Verdict::Accepted
    }
}
