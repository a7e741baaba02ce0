// The sorts of token. Where nothing is said of a value it is 0.
// kept: sorts stand in byte lists that crates lend each other, and the definitions `token_sort` and `token_by` have numbers.

// no token
pub const NO_TOKEN: u8 = 0;

// a name; its value is how many bytes it has
pub const NAME: u8 = 1;

// a number, which is its value
pub const NUMBER: u8 = 2;

pub const MINUS: u8 = 3;

pub const NOT: u8 = 4;

pub const GIVEN: u8 = 5;

// an operator between its operands that makes no chain; its value is its number
pub const ARITH: u8 = 6;

pub const AND: u8 = 7;

pub const OR: u8 = 8;

pub const ROUND_OPEN: u8 = 9;

pub const ROUND_CLOSE: u8 = 10;

pub const SQUARE_OPEN: u8 = 11;

pub const SQUARE_CLOSE: u8 = 12;

pub const SKIP: u8 = 13;

pub const STOP: u8 = 14;

pub const SEQ: u8 = 15;

pub const PAR: u8 = 16;

pub const IF: u8 = 17;

pub const ALT: u8 = 18;

pub const WHILE: u8 = 19;

// `:=`
pub const BECOMES: u8 = 20;

// `?`
pub const ASKS: u8 = 21;

// `!`
pub const TELLS: u8 = 22;

pub const AMPERSAND: u8 = 23;

pub const INT: u8 = 24;

pub const CHAN: u8 = 25;

pub const HOSTIN: u8 = 26;

pub const HOSTOUT: u8 = 27;

pub const COLON: u8 = 28;

// a word that stands in no line; its value is which
pub const UNUSED: u8 = 29;
