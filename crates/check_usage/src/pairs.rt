// The pairs of components of a PAR, compared in turn until two clash.
ghost use Rattle.std.specs.Prelude.{◌≡◌, map, ◌+◌, ◌*◌, ◌<◌, ◌≤◌, length, get_or, drop};
ghost use Rattle.check_usage.specs.Search.{meet_by, tests_of, searched, HaveSets};

use base_sets::meet;

// Two components clash: how many pairs have been compared, with theirs.
#[derive(Drop)]
pub struct ClashFound {
    pub pairs: u32,
}

// Whether the components at rows p and q clash by a refusal number: 7 a cell changed in the one and used in the other, 8 an element input from in both, 9 one output to in both.
fn clash<'a>(sets: &'a [u64], number: u8, p: usize, q: usize) -> bool
    requires { (16 * p + 16 ≤ length sets.now) × (16 * q + 16 ≤ length sets.now) }
    ensures { result ≡ meet_by sets.now number p q }
{
    let i = 16 * p;
    let j = 16 * q;
    match number {
        7 => meet(sets, i, sets, j + 4) | meet(sets, j, sets, i + 4),
        8 => meet(sets, i + 8, sets, j + 8),
        _ => meet(sets, i + 12, sets, j + 12),
    }
}

// Component i compared with each after it, until two clash: how many pairs have been compared.
fn with_later<'a>(
    sets: &'a [u64],
    number: u8,
    members: &'a [u16],
    i: usize,
    before: u32,
) -> Result<u32, ClashFound>
    requires { (i < length members.now) × (before + length members.now < 4294967296) × HaveSets members.now sets.now }
    ensures { result ≡ searched before (map (meet_by sets.now number (get_or members.now i 0)) (drop (i + 1) members.now)) }
{
    let p = members[i] as usize;
    let mut pairs = before;
    for j in i + 1..members.len() {
        pairs += 1;
        if clash(sets, number, p, members[j] as usize) {
            return Err(ClashFound { pairs });
        }
    }
    Ok(pairs)
}

// Each component compared with those after it, until two clash: how many pairs have been compared.
pub fn among<'a>(
    sets: &'a [u64],
    number: u8,
    members: &'a [u16],
    before: u32,
) -> Result<u32, ClashFound>
    requires { (length members.now ≤ 1024) × (before + 1024 * length members.now < 4294967296) × HaveSets members.now sets.now }
    ensures { result ≡ searched before (tests_of (meet_by sets.now number) members.now) }
{
    let mut pairs = before;
    for i in 0..members.len() {
        pairs = with_later(sets, number, members, i, pairs)?;
    }
    Ok(pairs)
}
