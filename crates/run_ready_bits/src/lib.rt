// The rows that have a ready step, as bits: a bit for each of 1,024 rows in sixteen words; then how many are set in each word; then how many in all.
#![tactic(auto)]

ghost use Rattle.std.specs.Prelude.{◌≡◌, ℕ, ◌%◌, ◌<◌, Bool, slice_index, slice_index_or};
ghost use Rattle.meaning.specs.Basics.{all_below};
ghost use Rattle.run_ready_bits.specs.Bits.{on, has, turned, raised, lowered, no_rows, without_lowest, BitsCounted, Shown, picked_from, chosen_of};

// Still to do: a struct of the words, their counts and the total in place of the one array, with the definitions of specs/Bits.

// No row.
pub fn clear() -> [u64; 33]
    ensures { result ≡ no_rows }
{
    [0u64; 33]
}

// Whether row r is in. Rows are taken modulo 1,024, here and below, so that no test is needed.
pub fn has(bits: &[u64; 33], r: usize) -> bool
    ensures { result ≡ has bits.now r }
{
    (bits[r / 64 % 16] >> (r % 64)) % 2 == 1
}

// The bit of row r is turned, and d is added to the count of its word and to the total.
fn turn(bits: &mut [u64; 33], r: usize, d: u64)
    ensures { bits.new ≡ turned bits.old r d }
{
    let i = r / 64 % 16;
    bits[i] ^= 1 << (r % 64);
    bits[i + 16] = bits[i + 16].wrapping_add(d);
    bits[32] = bits[32].wrapping_add(d);
}

// Row r comes in.
pub fn raise(bits: &mut [u64; 33], r: usize)
    ensures { bits.new ≡ raised bits.old r }
{
    if !has(bits, r) {
        turn(bits, r, 1);
    }
}

// Row r goes out.
pub fn lower(bits: &mut [u64; 33], r: usize)
    ensures { bits.new ≡ lowered bits.old r }
{
    if has(bits, r) {
        turn(bits, r, u64::MAX);
    }
}

// How many rows are in.
pub fn total(bits: &[u64; 33]) -> u64
    ensures { result ≡ slice_index bits.now 32 }
{
    bits[32]
}

// A word without its lowest bit.
fn rest(w: u64) -> u64
    ensures { result ≡ without_lowest w }
{
    w & w.wrapping_sub(1)
}

// The place of the k-th bit of a word, from 0 on; 64 if there are not so many.
fn place(word: u64, k: u64) -> usize
    ensures { result ≡ slice_index_or (all_below (on word) 64) k 64 }
{
    let mut w = word;
    for _ in 0..k {
        w = rest(w);
    }
    w.trailing_zeros() as usize
}

// The k-th row, from 0 on, in order; 1,024 if there are not so many.
pub fn pick(bits: &[u64; 33], k: u64) -> usize
    ensures numbers { result ≡ picked_from bits.now 0 16 k }
    ensures meaning { BitsCounted bits.now → result ≡ slice_index_or (all_below (has bits.now) 1024) k 1024 }
{
    let mut left = k;
    for i in 0..16 {
        let n = bits[i + 16];
        if left < n {
            return 64 * i + place(bits[i], left);
        }
        left -= n;
    }
    1024
}

// The row that a choice picks of those that are in.
pub fn choose(bits: &[u64; 33], choice: u16) -> usize
    ensures numbers { result ≡ chosen_of bits.now choice }
    ensures meaning { (f : ℕ → Bool) (n : ℕ) → Shown f n bits.now → 0 < slice_index bits.now 32 → result ≡ slice_index_or (all_below f n) (choice % slice_index bits.now 32) n }
{
    let n = bits[32];
    if n == 0 {
        return 0;
    }
    pick(bits, choice as u64 % n)
}
