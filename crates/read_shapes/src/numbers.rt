// Kinds by number.
// kept: a kind stands in a byte of the stack, with 8 more for a square bracket (the definition `opening_at`), so that the longest stack has 32,769 bytes.

// an operator may follow the operand
pub const INITIAL: u8 = 0;

// none may
pub const FINAL: u8 = 1;

// the operand must be an element, and none may
pub const ELEMENT: u8 = 2;

// only AND may
pub const AND_CHAIN: u8 = 3;

// only OR may
pub const OR_CHAIN: u8 = 4;
