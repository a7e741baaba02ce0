// Bit sets in sixteen words: four words for each sort, with a bit for each of 256 cells or channel elements.
#![tactic(auto)]

ghost use Rattle.std.specs.Prelude.{◌≡◌, ◌<◌, ◌≤◌, ◌+◌, length, get_or};
ghost use Rattle.meaning.specs.Usage.{numbers_from};
ghost use Rattle.base_sets.specs.Sets.{with_one, with_all, in_sort, set_union, share, in_common};

// Number x of a sort is put in; past 255 there is nothing to put.
pub fn put(sets: &mut [u64], sort: usize, x: usize)
    requires { sort < 4 }
    ensures { sets.new ≡ with_one sets.old sort x }
{
    if 256 <= x {
        return;
    }
    let w = 4 * sort + x / 64;
    if w < sets.len() {
        sets[w] |= 1 << (x % 64);
    }
}

// The n numbers of a sort from `first` on are put in.
pub fn put_range(sets: &mut [u64], sort: usize, first: u32, n: u32)
    requires { sort < 4 }
    ensures { sets.new ≡ with_all sets.old (in_sort sort (numbers_from first n)) }
{
    for k in 0..n {
        put(sets, sort, (first as usize) + (k as usize));
    }
}

// What `more` holds is put in.
pub fn join(sets: &mut [u64], more: &[u64])
    requires { length sets.old ≡ length more.now }
    ensures { sets.new ≡ set_union sets.old more.now }
{
    for i in 0..sets.len() {
        sets[i] |= more[i];
    }
}

// Whether word i of one and word j of another have a bit in common.
fn share_at<'a>(one: &'a [u64], i: usize, other: &'a [u64], j: usize) -> bool
    requires { (i < length one.now) × (j < length other.now) }
    ensures { result ≡ share (get_or one.now i 0) (get_or other.now j 0) }
{
    one[i] & other[j] != 0
}

// Whether four words of one, from i on, and four of another, from j on, have a bit in common.
pub fn meet<'a>(one: &'a [u64], i: usize, other: &'a [u64], j: usize) -> bool
    requires { (i + 4 ≤ length one.now) × (j + 4 ≤ length other.now) }
    ensures { result ≡ in_common one.now i other.now j }
{
    // `|`, and not `||`: a test of each word alone takes a pair of components a quarter longer
    share_at(one, i, other, j)
        | share_at(one, i + 1, other, j + 1)
        | share_at(one, i + 2, other, j + 2)
        | share_at(one, i + 3, other, j + 3)
}
