// The classes of lines by number.
// kept: a class stands in a byte with what is expected, in a list that crates lend each other (the definition `kind_number`).

// no line
pub const NO_LINE: u8 = 0;

// a variable's declaration
pub const VARIABLE_LINE: u8 = 1;

// another declaration
pub const OTHER_DECLARATION: u8 = 2;

// a process with nothing beneath it
pub const LEAF: u8 = 3;

// an input, which is a process or a guard
pub const INPUT_LINE: u8 = 4;

// SEQ or PAR
pub const MEMBER_LINES: u8 = 5;

// IF
pub const CHOICE_LINES: u8 = 6;

// ALT
pub const OPTION_LINES: u8 = 7;

// WHILE
pub const WHILE_LINE: u8 = 8;

// a choice's boolean
pub const TEST_LINE: u8 = 9;

// a guard
pub const GUARD_LINE: u8 = 10;
