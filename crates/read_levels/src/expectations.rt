// What may be expected where a line stands, by number.
// kept: it stands in a byte with the class, in a list that crates lend each other (the definition `kind_number`).

// processes
pub const MEMBERS: u8 = 0;

pub const CHOICES: u8 = 1;

pub const OPTIONS: u8 = 2;

pub const NOTHING: u8 = 3;

// one process, which must come; what is below it by number may end
pub const ONE_PROCESS: u8 = 4;

// one process, which must come, and then processes
pub const ONE_MEMBER: u8 = 5;

// declarations and then one process
pub const HEADS: u8 = 6;
