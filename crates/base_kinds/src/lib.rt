// The kinds of rows as a constant table: which fields are used, what each holds, and which kinds each may refer to.
#![tactic(auto)]

ghost use Rattle.std.specs.Prelude.{◌≡◌};
ghost use Rattle.meaning.specs.Basics.{among};
ghost use Rattle.meaning.specs.Kinds.{shape_of, processes};
ghost use Rattle.base_kinds.specs.Table.{numbers_in, meant_shape, table_shape, KindTable, table_of_kinds};

// What the fields a, b, c of a kind hold, each an entry of the table below.
#[derive(Drop)]
pub struct Shape {
    pub a: u64,
    pub b: u64,
    pub c: u64,
}

// The sorts of field. An entry is a sort, and 16 times what the sort says of the field.
const UNUSED: u64 = 0;

pub const VALUE: u64 = 1;

// from one number to 256 times another
pub const RANGE: u64 = 2;

// of a channel: 1 to 64, for role 1 and 2 only 1
pub const ELEMENTS: u64 = 3;

// of a channel: 0 to 256 for role 2, else 0
pub const CAPACITY: u64 = 4;

// the name of a variable
pub const VARIABLE: u64 = 5;

// the name of a channel of one of these roles
pub const CHANNEL: u64 = 6;

// a reference to a row of one of these kinds
pub const REFERENCE: u64 = 7;

// the same, or -1 for none
pub const LINK: u64 = 8;

// a monadic operator: 0 to 2; not 2 where its operand is a row of another kind than an element
pub const OPERATOR: u64 = 9;

// a number that is no kind
pub const NO_KIND: u64 = 10;

const NONE: [u64; 3] = [NO_KIND, NO_KIND, NO_KIND];

// Ranges
const CELLS: u64 = RANGE + 16 * (1 + 256 * 64);

const ROLE: u64 = RANGE + 16 * (256 * 2);

const DYADIC: u64 = RANGE + 16 * (256 * 15);

// Channels by their roles
const SOURCE: u64 = CHANNEL + 16 * (1 << 0 | 1 << 1);

const SINK: u64 = CHANNEL + 16 * (1 << 0 | 1 << 2);

// References by the kinds they may go to: expressions are of kind 10 to 13, processes of kind 20 to 24 and 30 to 35
const EXPRESSION: u64 = REFERENCE + 16 * (15 << 10);

const PROCESSES: u64 = 31 << 20 | 63 << 30;

const PROCESS: u64 = REFERENCE + 16 * PROCESSES;

const TARGET: u64 = REFERENCE + 16 * (1 << 11);

const GUARD: u64 = REFERENCE + 16 * (1 << 23 | 1 << 43);

const GUARDED: u64 = REFERENCE + 16 * (1 << 21 | 1 << 23);

const MEMBERS: u64 = LINK + 16 * (1 << 40);

const CHOICES: u64 = LINK + 16 * (1 << 41);

const OPTIONS: u64 = LINK + 16 * (1 << 42);

// What the fields a, b, c of each kind hold, by its number.
const KINDS: [[u64; 3]; 44] = [
    NONE, // 0
    [CELLS, UNUSED, UNUSED], // 1 variable
    [ELEMENTS, ROLE, CAPACITY], // 2 channel
    NONE, // 3
    NONE, // 4
    NONE, // 5
    NONE, // 6
    NONE, // 7
    NONE, // 8
    NONE, // 9
    [VALUE, UNUSED, UNUSED], // 10 literal
    [VARIABLE, EXPRESSION, UNUSED], // 11 element
    [OPERATOR, EXPRESSION, UNUSED], // 12 monadic
    [DYADIC, EXPRESSION, EXPRESSION], // 13 dyadic
    NONE, // 14
    NONE, // 15
    NONE, // 16
    NONE, // 17
    NONE, // 18
    NONE, // 19
    [UNUSED, UNUSED, UNUSED], // 20 STOP
    [UNUSED, UNUSED, UNUSED], // 21 SKIP
    [VARIABLE, EXPRESSION, EXPRESSION], // 22 assignment
    [SOURCE, EXPRESSION, TARGET], // 23 input
    [SINK, EXPRESSION, EXPRESSION], // 24 output
    NONE, // 25
    NONE, // 26
    NONE, // 27
    NONE, // 28
    NONE, // 29
    [MEMBERS, UNUSED, UNUSED], // 30 SEQ
    [MEMBERS, UNUSED, UNUSED], // 31 PAR
    [CHOICES, UNUSED, UNUSED], // 32 IF
    [EXPRESSION, PROCESS, UNUSED], // 33 WHILE
    [OPTIONS, UNUSED, UNUSED], // 34 ALT
    [VARIABLE, PROCESS, UNUSED], // 35 block
    NONE, // 36
    NONE, // 37
    NONE, // 38
    NONE, // 39
    [PROCESS, MEMBERS, UNUSED], // 40 member
    [PROCESS, CHOICES, EXPRESSION], // 41 choice
    [PROCESS, OPTIONS, GUARD], // 42 option
    [EXPRESSION, GUARDED, UNUSED], // 43 guard
];

// The table, in an array that a loop over the rows lends to what it calls.
pub fn kind_table() -> [[u64; 3]; 44]
    ensures numbers { result ≡ table_of_kinds }
    ensures meaning { KindTable result }
{
    KINDS
}

// The shape of a kind.
pub fn shape_of(table: &[[u64; 3]], k: u32) -> Shape
    requires { KindTable table.now }
    ensures numbers { result ≡ table_shape table.now k }
    ensures meaning { meant_shape k result ≡ shape_of k }
{
    match table.get(k as usize) {
        Some(line) => Shape {
            a: line[0],
            b: line[1],
            c: line[2],
        },
        None => Shape {
            a: NO_KIND,
            b: NO_KIND,
            c: NO_KIND,
        },
    }
}

// Whether a number is in a mask.
pub fn in_mask(mask: u64, k: u32) -> bool
    ensures { result ≡ among k (numbers_in mask) }
{
    k < 64 && (mask >> k) % 2 == 1
}

// Whether a kind is one of a process.
pub fn is_process(k: u32) -> bool
    ensures { result ≡ among k processes }
{
    in_mask(PROCESSES, k)
}
