// The names of a text resolved: those that it declares are listed, then each name is looked up. Refusal 13.
ghost use Rattle.std.specs.Prelude.{◌≡◌, ◌≤◌, length, replicate};
ghost use Rattle.read_levels.specs.Listing.{listing, TextListed};
ghost use Rattle.read_text.specs.Naming.{NamesRead, NamesRoom};
ghost use Rattle.read_names.specs.Keys.{key_limit};
ghost use Rattle.read_declared.specs.Declarations.{Declared};

use read_uses::Names;

// How many names are declared, or the line that is at fault: looks up the names of a text, the declared ones listed in the first places of lent lists.
fn resolve_listed(
    text: &[u8],
    kinds: &[u8],
    count: usize,
    ends: &[u16],
    sorts: &[u8],
    values: &mut [i32],
    froms: &[u16],
    sizes: &[u8],
    roles: &[u8],
    heads: &mut [u16],
    nexts: &mut [u16],
) -> Result<usize, u32>
    requires { TextListed text.now count (listing kinds.now ends.now sorts.now values.old) × Declared text.now froms.now sizes.now roles.now × (length froms.now ≤ 32768) × (length froms.now ≤ length nexts.old) × (heads.old ≡ replicate key_limit 0) }
    ensures { NamesRead text.now count (listing kinds.now ends.now sorts.now values.new) result }
{
    read_names::index(text, froms, sizes, heads, nexts);
    let names = Names {
        froms,
        sizes,
        roles,
        heads,
        nexts,
    };
    read_uses::names_fault(text, kinds, count, ends, sorts, values, names)?;
    Ok(froms.len())
}

// Lists the declared names of a text, and looks up its names.
fn resolve_with(
    text: &[u8],
    kinds: &[u8],
    count: usize,
    ends: &[u16],
    sorts: &[u8],
    values: &mut [i32],
    froms: &mut [u16],
    sizes: &mut [u8],
    roles: &mut [u8],
    heads: &mut [u16],
    nexts: &mut [u16],
) -> Result<usize, u32>
    requires { TextListed text.now count (listing kinds.now ends.now sorts.now values.old) × NamesRoom count froms.old sizes.old roles.old nexts.old × (heads.old ≡ replicate key_limit 0) }
    ensures { NamesRead text.now count (listing kinds.now ends.now sorts.now values.new) result }
{
    let declared = read_declared::gather(kinds, count, ends, sorts, values, froms, sizes, roles);
    resolve_listed(
        text,
        kinds,
        count,
        ends,
        sorts,
        values,
        &froms[..declared],
        &sizes[..declared],
        &roles[..declared],
        heads,
        nexts,
    )
}

// The same with lists for a text of at most 1,024 lines.
fn resolve_few(
    text: &[u8],
    kinds: &[u8],
    count: usize,
    ends: &[u16],
    sorts: &[u8],
    values: &mut [i32],
) -> Result<usize, u32>
    requires { TextListed text.now count (listing kinds.now ends.now sorts.now values.old) × (count ≤ 1024) }
    ensures { NamesRead text.now count (listing kinds.now ends.now sorts.now values.new) result }
{
    let mut froms = [0u16; 1024];
    let mut sizes = [0u8; 1024];
    let mut roles = [0u8; 1024];
    let mut heads = [0u16; 4096];
    let mut nexts = [0u16; 1024];
    resolve_with(
        text, kinds, count, ends, sorts, values, &mut froms, &mut sizes, &mut roles, &mut heads,
        &mut nexts,
    )
}

// The same with lists for any text.
fn resolve_many(
    text: &[u8],
    kinds: &[u8],
    count: usize,
    ends: &[u16],
    sorts: &[u8],
    values: &mut [i32],
) -> Result<usize, u32>
    requires { TextListed text.now count (listing kinds.now ends.now sorts.now values.old) × (count ≤ 32768) }
    ensures { NamesRead text.now count (listing kinds.now ends.now sorts.now values.new) result }
{
    let mut froms = [0u16; 32768];
    let mut sizes = [0u8; 32768];
    let mut roles = [0u8; 32768];
    let mut heads = [0u16; 4096];
    let mut nexts = [0u16; 32768];
    resolve_with(
        text, kinds, count, ends, sorts, values, &mut froms, &mut sizes, &mut roles, &mut heads,
        &mut nexts,
    )
}

// Resolves the names of a text, the number of each name being then that of its row: how many are declared, or the first line on which names are not in order.
pub fn resolve(
    text: &[u8],
    kinds: &[u8],
    count: usize,
    ends: &[u16],
    sorts: &[u8],
    values: &mut [i32],
) -> Result<usize, u32>
    requires { TextListed text.now count (listing kinds.now ends.now sorts.now values.old) × (count ≤ 32768) }
    ensures { NamesRead text.now count (listing kinds.now ends.now sorts.now values.new) result }
{
    if count <= 1024 {
        return resolve_few(text, kinds, count, ends, sorts, values);
    }
    resolve_many(text, kinds, count, ends, sorts, values)
}
