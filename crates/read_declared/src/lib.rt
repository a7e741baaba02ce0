// The declarations of a text: their names and roles listed, and their rows.
#![tactic(auto)]

ghost use Rattle.std.specs.Prelude.{◌≡◌, ◌==◌, ◌≤◌, ◌<◌, length};
ghost use Rattle.std.specs.List.{position};
ghost use Rattle.read_levels.specs.Listing.{listing, SomeTextListed};
ghost use Rattle.read_declared.specs.Firsts.{place_of_sort, number_in, name_in, Named};
ghost use Rattle.read_declared.specs.Declarations.{row_listed, unless_one, role_listed, HasMark, Listable, ListedAt, GatheredFrom, RoomForRows, RowsPut};

use read_classes::classes;
use read_tokens::sorts;

// The place of the first token of a sort, if one is of it.
fn find_sort(sorts: &[u8], sort: u8) -> Option<usize>
    ensures { result ≡ position (λ s. s == sort) sorts.now }
{
    sorts.iter().position(|s| *s == sort)
}

// The same; as many as there are if none is of it.
pub fn first_of(sorts: &[u8], sort: u8) -> usize
    ensures { result ≡ place_of_sort sort sorts.now }
{
    find_sort(sorts, sort).unwrap_or(sorts.len())
}

// The number in a declaration; 1 if it has none.
fn number_in(sorts: &[u8], values: &[i32]) -> i32
    requires { length sorts.now ≡ length values.now }
    ensures { result ≡ number_in sorts.now values.now }
{
    let at = first_of(sorts, sorts::NUMBER);
    if at < sorts.len() { values[at] } else { 1 }
}

// What is listed of the first name.
fn name_in(sorts: &[u8], values: &[i32]) -> usize
    requires { Named sorts.now values.now }
    ensures { result ≡ name_in sorts.now values.now }
{
    values[first_of(sorts, sorts::NAME)] as usize
}

// The row of the declaration that listed tokens are.
fn declaration_row(sorts: &[u8], values: &[i32]) -> [i32; 4]
    requires { HasMark sorts.now values.now }
    ensures { result ≡ row_listed sorts.now values.now }
{
    let number = number_in(sorts, values);
    let mark = sorts[read_classes::first_mark(sorts)];
    match mark {
        sorts::INT => [1, number, 0, 0],
        sorts::CHAN => [2, number, 0, 0],
        sorts::HOSTIN => [2, 1, 1, 0],
        _ => [2, 1, 2, number],
    }
}

// 4 for a size other than 1.
fn unless_one(size: i32) -> u8
    ensures { result ≡ unless_one size }
{
    if size == 1 { 0 } else { 4 }
}

// The role of the declaration that listed tokens are.
fn role_of(sorts: &[u8], values: &[i32]) -> u8
    requires { HasMark sorts.now values.now }
    ensures { result ≡ role_listed sorts.now values.now }
{
    let more = unless_one(number_in(sorts, values));
    let mark = sorts[read_classes::first_mark(sorts)];
    match mark {
        sorts::INT => more,
        sorts::CHAN => more + 1,
        sorts::HOSTIN => 2,
        _ => 3,
    }
}

// Lists the declaration that listed tokens are.
fn list_declaration(
    sorts: &[u8],
    values: &[i32],
    at: usize,
    froms: &mut [u16],
    sizes: &mut [u8],
    roles: &mut [u8],
)
    requires { Listable sorts.now values.now × (at < length froms.old) × (at < length sizes.old) × (at < length roles.old) }
    ensures { ListedAt sorts.now values.now at froms.old sizes.old roles.old froms.new sizes.new roles.new }
{
    let place = name_in(sorts, values);
    froms[at] = (place / 32) as u16;
    sizes[at] = (place % 32) as u8;
    roles[at] = role_of(sorts, values);
}

// Lists the declarations of a text: where each name begins, how many bytes it has, and its role.
pub fn gather(
    kinds: &[u8],
    count: usize,
    ends: &[u16],
    sorts: &[u8],
    values: &[i32],
    froms: &mut [u16],
    sizes: &mut [u8],
    roles: &mut [u8],
) -> usize
    requires { SomeTextListed count (listing kinds.now ends.now sorts.now values.now) × (count ≤ length froms.old) × (count ≤ length sizes.old) × (count ≤ length roles.old) }
    ensures { GatheredFrom count (listing kinds.now ends.now sorts.now values.now) result froms.new sizes.new roles.new × (result ≤ count) }
{
    let mut first: usize = 0;
    let mut found: usize = 0;
    for line in 0..count {
        let end = ends[line] as usize;
        if kinds[line] % 16 <= classes::OTHER_DECLARATION {
            list_declaration(
                &sorts[first..end],
                &values[first..end],
                found,
                froms,
                sizes,
                roles,
            );
            found += 1;
        }
        first = end;
    }
    found
}

// Writes the rows of the declarations of a text at the beginning of the lent rows.
pub fn put_rows(
    kinds: &[u8],
    count: usize,
    ends: &[u16],
    sorts: &[u8],
    values: &[i32],
    rows: &mut [i32],
)
    requires { RoomForRows count (listing kinds.now ends.now sorts.now values.now) rows.old }
    ensures { RowsPut count (listing kinds.now ends.now sorts.now values.now) rows.old rows.new }
{
    let mut first: usize = 0;
    let mut found: usize = 0;
    for line in 0..count {
        let end = ends[line] as usize;
        if kinds[line] % 16 <= classes::OTHER_DECLARATION {
            let row = declaration_row(&sorts[first..end], &values[first..end]);
            let start = 4 * found;
            rows[start..start + 4].copy_from_slice(&row);
            found += 1;
        }
        first = end;
    }
}
