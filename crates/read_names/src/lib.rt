// Names listed by where they stand in a text, and found by their keys.
#![tactic(auto)]

ghost use Rattle.std.specs.Prelude.{◌≡◌, ◌≤◌, length, replicate};
ghost use Rattle.meaning.specs.Lines as lines;
ghost use Rattle.grammar.specs.TextRows.{name_row};
ghost use Rattle.read_names.specs.Listed.{name_at, names_at};
ghost use Rattle.read_names.specs.Keys.{key_limit, key_of, Indexed};

use read_table::scan;

// The key of a name.
fn key_of(name: &[u8]) -> usize
    ensures { result ≡ key_of name.now }
{
    let mut key: usize = 0;
    for b in name {
        key = (33 * key + usize::from(*b)) % 4096;
    }
    key
}

// The listed name that begins at a place and has so many bytes, as far as the text goes.
fn listed(text: &[u8], from: usize, size: usize) -> &[u8]
    ensures { result.now ≡ name_at text.now from size }
{
    if text.len() <= from {
        return &[];
    }
    if text.len() - from < size {
        return &text[from..];
    }
    &text[from..from + size]
}

// Whether a name is the listed one that begins at a place and has so many bytes.
fn is_listed(text: &[u8], from: usize, size: usize, name: &[u8]) -> bool
    ensures { result ≡ lines.same name.now (name_at text.now from size) }
{
    if text.len() <= from {
        return name.len() == 0;
    }
    scan::same(name, listed(text, from, size))
}

// Chains the listed names by their keys, from the last to the first.
// kept: a map needs a heap; the chains are lent lists, and a name is found in those of its key.
pub fn index(text: &[u8], froms: &[u16], sizes: &[u8], heads: &mut [u16], nexts: &mut [u16])
    requires { (length froms.now ≡ length sizes.now) × (length froms.now ≤ 32768) × (length froms.now ≤ length nexts.old) × (heads.old ≡ replicate key_limit 0) }
    ensures { Indexed (names_at text.now froms.now sizes.now) heads.new nexts.new × (length nexts.new ≡ length nexts.old) }
{
    for at in (0..froms.len()).rev() {
        let key = key_of(listed(text, froms[at] as usize, sizes[at] as usize));
        nexts[at] = heads[key];
        heads[key] = (at + 1) as u16;
    }
}

// The first of the listed names that is a name; as many as there are if none is.
// kept: the definition `name_row` of the crate `grammar` has that number where no name is.
pub fn find(
    text: &[u8],
    froms: &[u16],
    sizes: &[u8],
    heads: &[u16],
    nexts: &[u16],
    name: &[u8],
) -> usize
    requires { (length froms.now ≡ length sizes.now) × Indexed (names_at text.now froms.now sizes.now) heads.now nexts.now }
    ensures { result ≡ name_row (names_at text.now froms.now sizes.now) name.now }
{
    // kept: the place goes along a chain of the index, not by one
    let mut at = heads[key_of(name)] as usize;
    while 0 < at {
        let row = at - 1;
        if is_listed(text, froms[row] as usize, sizes[row] as usize, name) {
            return row;
        }
        at = nexts[row] as usize;
    }
    froms.len()
}
