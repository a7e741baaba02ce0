// The tokens of a line from left to right.
#![tactic(auto)]

ghost use Rattle.std.specs.Prelude.{◌≡◌, ◌+◌, ◌≤◌, length, drop};
ghost use Rattle.std.proofs.Math.Option.{none};
ghost use Rattle.read_scan.specs.Nexts.{blanks, standing, next_in, reach_from};

use read_tokens::Lexeme;

// The next token of a line, where it begins and where it ends. No token ends where it begins.
#[derive(Clone, Copy)]
pub struct Next {
    pub token: Option<Lexeme>,
    pub from: usize,
    pub to: usize,
}

// Where the spaces that begin at a place end.
pub fn blank_end(line: &[u8], from: usize) -> usize
    ensures { result ≡ from + blanks (drop from line.now) }
{
    for at in from..line.len() {
        if line[at] != b' ' {
            return at;
        }
    }
    from.max(line.len())
}

// No token at a place.
fn none_at(from: usize) -> Next
    ensures { result ≡ standing none from from }
{
    Next {
        token: None,
        from,
        to: from,
    }
}

// Up to where a token that begins at a place is looked for: 32 bytes are no token.
fn reach(line: &[u8], from: usize) -> usize
    requires { from ≤ length line.now }
    ensures { result ≡ reach_from line.now from }
{
    if line.len() - from < 32 {
        line.len()
    } else {
        from + 32
    }
}

// The next token of a line from a place on.
pub fn next_token(line: &[u8], at: usize) -> Next
    ensures { result ≡ next_in line.now at }
{
    let from = blank_end(line, at);
    if line.len() <= from {
        return none_at(from);
    }
    let end = reach(line, from);
    let to = read_tokens::chunk_end(&line[..end], from);
    match read_tokens::token_of(&line[from..to]) {
        Some(token) => Next {
            token: Some(token),
            from,
            to,
        },
        None => none_at(from),
    }
}
