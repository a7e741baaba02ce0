// What a token is in an expression.
ghost use Rattle.std.specs.Prelude.{◌≡◌, ◌<◌};
ghost use Rattle.read_marks.specs.Roles as roles;
ghost use Rattle.read_marks.specs.declared.Role.TheVariants.{Closing};

use crate::Role;
use read_tokens::sorts;

// The role of a token of a sort.
#[tactic(auto, unfolding(crate::specs::Roles::role_of))]
pub fn role_of(sort: u8) -> Role
    ensures { result ≡ roles.role_of sort }
{
    match sort {
        sorts::NAME | sorts::NUMBER => Role::Operand,
        sorts::MINUS | sorts::ARITH | sorts::AND | sorts::OR => Role::Between,
        sorts::ROUND_OPEN => Role::RoundOpening,
        sorts::SQUARE_OPEN => Role::SquareOpening,
        sorts::ROUND_CLOSE | sorts::SQUARE_CLOSE => Role::Closing,
        _ => Role::Other,
    }
}

// Whether an operand has been read after a token of a sort.
pub fn had_after(sort: u8) -> bool
    ensures { result ≡ roles.had_after (roles.role_of sort) }
{
    matches!(role_of(sort), Role::Operand | Role::Closing)
}

// How many brackets are open after it.
pub fn depth_after(sort: u8, depth: usize) -> usize
    requires { (depth < 32768) × (roles.role_of sort ≡ Closing → 0 < depth) }
    ensures { result ≡ roles.depth_after (roles.role_of sort) depth }
{
    match role_of(sort) {
        Role::RoundOpening | Role::SquareOpening => depth + 1,
        Role::Closing => depth - 1,
        Role::Operand | Role::Between | Role::Other => depth,
    }
}

// Whether it is an operator that can stand between operands.
pub fn is_between(sort: u8) -> bool
    ensures { result ≡ roles.is_between (roles.role_of sort) }
{
    role_of(sort) == Role::Between
}
