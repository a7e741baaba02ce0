// The layout of a table: what each row names, prepared once and read from then on.
#![tactic(auto)]

ghost use Rattle.std.specs.Prelude.{◌≡◌, ℕ, suc, ◌<◌, ◌≤◌, length};
ghost use Rattle.meaning.specs.Buffers.{sized};
ghost use Rattle.meaning.specs.Declarations.{declarations};
ghost use Rattle.meaning.specs.Faults.{WithinLimits};
ghost use Rattle.base_layout.specs.Names.{DeclarationReached, Named, name_at, names_of, name_in, sums_below, extent_of, variable_in, named_channel, channel_of, channel_in};
ghost use Rattle.base_layout.specs.declared.Sort.TheVariants.{Source, Sink};

pub mod nodes; // nodes.rt: the numbers of a row, and the rows that it refers to

use nodes::natural;

// The sort of what a row names: nothing, a variable, an inner channel, one from the host, one to the host.
#[derive(Clone, Copy, PartialEq, Eq)]
pub enum Sort {
    Nothing,
    Variable,
    Inner,
    Source,
    Sink,
}

// What a row names: its sort; its first cell or element, and how many; of a host channel its number among those of its role, and its capacity.
#[derive(Clone, Copy)]
pub struct Name {
    pub sort: Sort,
    pub first: u16,
    pub size: u16,
    pub number: u16,
    pub capacity: u16,
}

// The name of a row that names nothing.
pub const NO_NAME: Name = Name {
    sort: Sort::Nothing,
    first: 0,
    size: 0,
    number: 0,
    capacity: 0,
};

// The cells, elements and host channels that rows declare.
#[derive(Clone, Copy)]
pub struct Sums {
    pub cells: u16,
    pub elements: u16,
    pub sources: u16,
    pub sinks: u16,
}

// The sums of no rows.
pub const NO_SUMS: Sums = Sums {
    cells: 0,
    elements: 0,
    sources: 0,
    sinks: 0,
};

// The sums with those of row r.
pub fn with_row(rows: &[i32], r: usize, s: Sums) -> Sums
    requires { DeclarationReached rows.now r s }
    ensures { result ≡ sums_below rows.now (suc r) }
{
    let size = natural(rows, r, 1) as u16;
    if natural(rows, r, 0) == 1 {
        return Sums {
            cells: s.cells + size,
            ..s
        };
    }
    let elements = s.elements + size;
    match natural(rows, r, 2) {
        1 => Sums {
            elements,
            sources: s.sources + 1,
            ..s
        },
        2 => Sums {
            elements,
            sinks: s.sinks + 1,
            ..s
        },
        _ => Sums { elements, ..s },
    }
}

// What row r names, from the sums of the rows before it.
pub fn name_of(rows: &[i32], r: usize, s: Sums) -> Name
    requires { DeclarationReached rows.now r s }
    ensures { result ≡ name_at rows.now r }
{
    let size = natural(rows, r, 1) as u16;
    if natural(rows, r, 0) == 1 {
        return Name {
            sort: Sort::Variable,
            first: s.cells,
            size,
            ..NO_NAME
        };
    }
    match natural(rows, r, 2) {
        0 => Name {
            sort: Sort::Inner,
            first: s.elements,
            size,
            ..NO_NAME
        },
        1 => Name {
            sort: Sort::Source,
            first: s.elements,
            size,
            number: s.sources,
            capacity: 0,
        },
        2 => Name {
            sort: Sort::Sink,
            first: s.elements,
            size,
            number: s.sinks,
            capacity: natural(rows, r, 3) as u16,
        },
        _ => NO_NAME,
    }
}

// Notes what each declaration of a table within the limits names, in a list with room for them that holds no names.
pub fn note_names(rows: &[i32], names: &mut [Name])
    requires limits { (r : ℕ) → r < declarations rows.now → WithinLimits rows.now r }
    requires room { (declarations rows.now ≤ length names.old) × ((i : ℕ) → name_in names.old i ≡ NO_NAME) }
    ensures numbers { names.new ≡ sized (length names.old) NO_NAME (names_of rows.now (declarations rows.now)) }
    ensures meaning { Named rows.now names.new }
{
    let mut s = NO_SUMS;
    for r in 0..base_rows::declarations(rows) {
        let name = name_of(rows, r, s);
        names[r] = name;
        s = with_row(rows, r, s);
    }
}

// What row a names; nothing past the list.
fn name_in(names: &[Name], a: u32) -> Name
    ensures { result ≡ name_in names.now a }
{
    let a = a as usize;
    if a < names.len() { names[a] } else { NO_NAME }
}

// The cells of a variable: the first, and how many.
#[derive(Clone, Copy)]
pub struct Extent {
    pub first: u32,
    pub size: u32,
}

// The variable that row a declares; no cell where it declares none.
pub fn variable_at(names: &[Name], a: u32) -> Extent
    ensures { result ≡ extent_of (variable_in names.now a) }
{
    let name = name_in(names, a);
    match name.sort {
        Sort::Variable => Extent {
            first: u32::from(name.first),
            size: u32::from(name.size),
        },
        _ => Extent { first: 0, size: 0 },
    }
}

// A channel of the host: its number among those of its role, and its capacity.
#[derive(Clone, Copy)]
pub struct HostChannel {
    pub number: u32,
    pub capacity: u32,
}

// The elements of a channel: the first, and how many; and if it is the host's, what it is there.
#[derive(Clone, Copy)]
pub struct Channel {
    pub first: u32,
    pub size: u32,
    pub host: Option<HostChannel>,
}

// The channel of a name, where an inner one or one of this host sort may be named; no element where it is none.
fn channel_named(name: Name, sort: Sort) -> Channel
    ensures { result ≡ channel_of (named_channel sort name) }
{
    let first = u32::from(name.first);
    let size = u32::from(name.size);
    if name.sort == sort {
        let host = HostChannel {
            number: u32::from(name.number),
            capacity: u32::from(name.capacity),
        };
        return Channel {
            first,
            size,
            host: Some(host),
        };
    }
    if name.sort == Sort::Inner {
        return Channel {
            first,
            size,
            host: None,
        };
    }
    Channel {
        first: 0,
        size: 0,
        host: None,
    }
}

// The channel of an input that names row a: an inner one, or one from the host.
pub fn source_at(names: &[Name], a: u32) -> Channel
    ensures { result ≡ channel_of (channel_in names.now Source a) }
{
    channel_named(name_in(names, a), Sort::Source)
}

// The channel of an output that names row a: an inner one, or one to the host.
pub fn sink_at(names: &[Name], a: u32) -> Channel
    ensures { result ≡ channel_of (channel_in names.now Sink a) }
{
    channel_named(name_in(names, a), Sort::Sink)
}
