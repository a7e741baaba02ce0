// Whether the names of a text are in order, and the rows that they mean. Refusal 13.
#![tactic(auto)]

ghost use Rattle.std.specs.Prelude.{◌≡◌, ℕ, ◌≤◌, ◌<◌, pos, length};
ghost use Rattle.meaning.specs.Rows.{natural_of};
ghost use Rattle.grammar.specs.Names.{names_fault};
ghost use Rattle.grammar.specs.TextRows.{name_row, text_lines};
ghost use Rattle.read_tokens.specs.Held.{letters_at};
ghost use Rattle.read_levels.specs.Listing.{listing, TextListed};
ghost use Rattle.read_names.specs.Listed.{names_at};
ghost use Rattle.read_names.specs.Keys.{Indexed};
ghost use Rattle.read_resolved.specs.Resolved.{TextResolved};
ghost use Rattle.read_classes.specs.Parts.{mark_in};
ghost use Rattle.read_declared.specs.Declarations.{Declared};
ghost use Rattle.read_uses.specs.Uses.{sort_by};
ghost use Rattle.read_uses.specs.Misuses.{serves_role, unfit_role, misnamed_by, mark_past, bare_at};
ghost use Rattle.read_uses.specs.Places.{place_of};
ghost use Rattle.read_uses.specs.Resolving.{NamesKnown, LineHeld, LineChecked};

use read_classes::classes;
use read_tokens::sorts;

// The declared names of a text: where each begins, how many bytes it has, its role, and the index of their letters.
#[derive(Clone, Copy)]
pub struct Names<'a> {
    pub froms: &'a [u16],
    pub sizes: &'a [u8],
    pub roles: &'a [u8],
    pub heads: &'a [u16],
    pub nexts: &'a [u16],
}

// Whether a name of a role serves where it stands first before a mark: before `?` no output of the host, before `!` no input of it, else a variable.
fn serves(role: u8, mark: u8) -> bool
    ensures { result ≡ serves_role role (sort_by mark) }
{
    match mark {
        sorts::ASKS => role == 1 || role == 2,
        sorts::TELLS => role == 1 || role == 3,
        _ => role == 0,
    }
}

// Whether a name of a role is not in order in a use.
fn role_unfit(role: u8, bare: bool, mark: u8) -> bool
    ensures { result ≡ unfit_role role bare (sort_by mark) }
{
    !serves(role % 4, mark) || bare && 4 <= role
}

// Whether a name that means a row is not in order, on a line that is a declaration or not, after so many declarations.
fn is_misnamed(
    found: usize,
    declares: bool,
    seen: usize,
    roles: &[u8],
    bare: bool,
    mark: u8,
) -> bool
    ensures { result ≡ misnamed_by declares seen found roles.now bare (sort_by mark) }
{
    if roles.len() <= found {
        return true;
    }
    if declares {
        return found < seen;
    }
    role_unfit(roles[found], bare, mark)
}

// The row that a name means, by where it stands.
fn row_of(text: &[u8], names: Names<'_>, value: i32) -> usize
    requires { ((k : ℕ) × (value ≡ pos k)) × (length names.froms.now ≡ length names.sizes.now) × Indexed (names_at text.now names.froms.now names.sizes.now) names.heads.now names.nexts.now }
    ensures { result ≡ name_row (names_at text.now names.entry.froms.now names.entry.sizes.now) (letters_at text.now (natural_of value)) }
{
    let place = value as usize;
    let from = text.len().min(place / 32);
    let to = text.len().min(from + place % 32);
    read_names::find(
        text,
        names.froms,
        names.sizes,
        names.heads,
        names.nexts,
        &text[from..to],
    )
}

// Whether no subscript begins at a token.
fn is_bare(sorts: &[u8], at: usize) -> bool
    ensures { result ≡ bare_at sorts.now at }
{
    sorts.get(at) != Some(&sorts::SQUARE_OPEN)
}

// The sort of the first mark.
fn mark_in(sorts: &[u8]) -> u8
    ensures { result ≡ mark_in sorts.now }
{
    let at = read_classes::first_mark(sorts);
    sorts.get(at).copied().unwrap_or(sorts::NO_TOKEN)
}

// The mark that the token after a token stands first before.
fn mark_past(sorts: &[u8], at: usize) -> u8
    requires { at < length sorts.now }
    ensures { result ≡ mark_past sorts.now at }
{
    if sorts[at] < sorts::SKIP {
        return sorts::NO_TOKEN;
    }
    mark_in(&sorts[at + 1..])
}

// Whether names are not in order on a line, which is a declaration or not, after so many declarations; each name's row is put in its place.
fn resolve_line(
    text: &[u8],
    sorts: &[u8],
    values: &mut [i32],
    declares: bool,
    seen: usize,
    names: Names<'_>,
) -> bool
    requires { LineHeld text.now sorts.now values.old × NamesKnown text.now names.froms.now names.sizes.now names.roles.now names.heads.now names.nexts.now }
    ensures { LineChecked text.now declares seen sorts.now values.old result values.new }
{
    let mut mark = mark_in(sorts);
    for at in 0..sorts.len() {
        let past = mark_past(sorts, at);
        if sorts[at] == sorts::NAME {
            let found = row_of(text, names, values[at]);
            if is_misnamed(
                found,
                declares,
                seen,
                names.roles,
                is_bare(sorts, at + 1),
                mark,
            ) {
                return true;
            }
            values[at] = found as i32;
        }
        mark = past;
    }
    false
}

// Whether the names of a text are in order, the first line on which they are not; where they are, each name's row is put in its place.
pub fn names_fault(
    text: &[u8],
    kinds: &[u8],
    count: usize,
    ends: &[u16],
    sorts: &[u8],
    values: &mut [i32],
    names: Names<'_>,
) -> Result<(), u32>
    requires { TextListed text.now count (listing kinds.now ends.now sorts.now values.old) × Declared text.now names.froms.now names.sizes.now names.roles.now × Indexed (names_at text.now names.froms.now names.sizes.now) names.heads.now names.nexts.now }
    ensures { (length values.new ≡ length values.old) × (result ≡ place_of (names_fault (text_lines text.now))) × (result ≡ Ok tt → TextResolved text.now count (listing kinds.now ends.now sorts.now values.new)) }
{
    let mut first: usize = 0;
    let mut seen: usize = 0;
    for line in 0..count {
        let end = ends[line] as usize;
        let declares = kinds[line] % 16 <= classes::OTHER_DECLARATION;
        if resolve_line(
            text,
            &sorts[first..end],
            &mut values[first..end],
            declares,
            seen,
            names,
        ) {
            return Err((line + 1) as u32);
        }
        if declares {
            seen += 1;
        }
        first = end;
    }
    Ok(())
}
