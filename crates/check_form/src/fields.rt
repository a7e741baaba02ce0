// Refusal 4: what each field of a row may hold, by the shape of its kind.
ghost use Rattle.std.specs.Prelude.{◌≡◌, Bool, false, not, ◌&&◌, ◌||◌, ℕ, pos, eqb};
ghost use Rattle.std.specs.Option.{option_map_or};
ghost use Rattle.meaning.specs.Basics.{eq_z, inside, any_passes, lowest};
ghost use Rattle.meaning.specs.Rows.{row_count, kind_at};
ghost use Rattle.meaning.specs.Declarations.{declarations, has_role};
ghost use Rattle.meaning.specs.Verdict.{names, may_hold, fits, form_fault_at};
ghost use Rattle.base_kinds.specs.Table.{numbers_in, field_meant, meant_shape, KindTable};
ghost use Rattle.base_rows.specs.Places.{place_of};

use base_kinds::Shape;

// Whether a number is from lo to hi, and `only` unless the role is `free`.
fn by_role(lo: i32, hi: i32, role: i32, free: i32, only: i32, z: i32) -> bool
    ensures { result ≡ (inside lo hi z && (eq_z role free || eq_z z only)) }
{
    base_rows::inside(lo, hi, z) && (role == free || z == only)
}

// The row of the first n that a number names, if it names one.
fn named(n: usize, z: i32) -> Option<usize>
    ensures { (test : ℕ → Bool) → option_map_or test result false ≡ names n test z }
{
    if z < 0 {
        return None;
    }
    let q = base_rows::natural(z) as usize;
    if q < n { Some(q) } else { None }
}

// Whether a number names one of d declarations, a variable.
fn names_variable(rows: &[i32], d: usize, z: i32) -> bool
    ensures { result ≡ names d (λ q. eqb (kind_at rows.now q) 1) z }
{
    let Some(q) = named(d, z) else {
        return false;
    };
    base_rows::kind(rows, q) == 1
}

// Whether a number names one of d declarations, a channel of one of these roles.
fn names_channel(rows: &[i32], d: usize, roles: u64, z: i32) -> bool
    requires { d ≡ declarations rows.now }
    ensures { result ≡ names d (λ q. any_passes (λ role. has_role role rows.now q) (numbers_in roles)) z }
{
    let Some(q) = named(d, z) else {
        return false;
    };
    base_rows::is_channel(rows, d, q)
        && base_kinds::in_mask(roles, base_rows::natural_field(rows, q, 2))
}

// Whether a number names a row of another kind than an element.
fn names_other(rows: &[i32], z: i32) -> bool
    ensures { result ≡ names (row_count rows.now) (λ q. not (eqb (kind_at rows.now q) 11)) z }
{
    let Some(q) = named(base_rows::row_count(rows), z) else {
        return false;
    };
    base_rows::kind(rows, q) != 11
}

// Whether a number is a monadic operator, beside its operand: 0 to 2; not 2 where the operand is a row of another kind than an element.
fn is_operator(rows: &[i32], operand: i32, z: i32) -> bool
    ensures { result ≡ (inside (pos 0) (pos 2) z && not (eq_z z (pos 2) && names (row_count rows.now) (λ q. not (eqb (kind_at rows.now q) 11)) operand)) }
{
    base_rows::inside(0, 2, z) && !(z == 2 && names_other(rows, operand))
}

// Whether a field of row r, of d declarations, may hold a number: by its entry in the table of kinds.
fn holds(rows: &[i32], d: usize, r: usize, entry: u64, z: i32) -> bool
    requires { d ≡ declarations rows.now }
    ensures { result ≡ may_hold rows.now d r (field_meant entry) z }
{
    let m = entry / 16;
    match entry % 16 {
        base_kinds::VALUE => true,
        base_kinds::RANGE => base_rows::inside((m % 256) as i32, (m / 256 % 256) as i32, z),
        base_kinds::ELEMENTS => by_role(1, 64, base_rows::field(rows, r, 2), 0, 1, z),
        base_kinds::CAPACITY => by_role(0, 256, base_rows::field(rows, r, 2), 2, 0, z),
        base_kinds::VARIABLE => names_variable(rows, d, z),
        base_kinds::CHANNEL => names_channel(rows, d, m, z),
        base_kinds::REFERENCE => true,
        base_kinds::LINK => true,
        base_kinds::OPERATOR => is_operator(rows, base_rows::field(rows, r, 2), z),
        _ => z == 0,
    }
}

// Whether row r is as a shape says.
fn fits(rows: &[i32], d: usize, r: usize, s: Shape) -> bool
    requires { d ≡ declarations rows.now }
    ensures { (k : ℕ) → result ≡ fits rows.now d r (meant_shape k s) }
{
    if s.a == base_kinds::NO_KIND {
        return false;
    }
    holds(rows, d, r, s.a, base_rows::field(rows, r, 1))
        && holds(rows, d, r, s.b, base_rows::field(rows, r, 2))
        && holds(rows, d, r, s.c, base_rows::field(rows, r, 3))
}

// Whether row r is of an unknown kind, a late declaration, or not as its kind says.
fn form_fault_at(table: &[[u64; 3]], rows: &[i32], d: usize, r: usize) -> bool
    requires { KindTable table.now × (d ≡ declarations rows.now) }
    ensures { result ≡ form_fault_at rows.now d r }
{
    if base_rows::declares(rows, r) && d <= r {
        return true;
    }
    let shape = base_kinds::shape_of(table, base_rows::kind(rows, r));
    !fits(rows, d, r, shape)
}

// The lowest row that is.
pub fn first_form_fault_at(table: &[[u64; 3]], rows: &[i32], d: usize) -> Option<usize>
    requires { KindTable table.now × (d ≡ declarations rows.now) }
    ensures { result ≡ place_of (lowest (form_fault_at rows.now d) (row_count rows.now)) }
{
    let n = base_rows::row_count(rows);
    for r in 0..n {
        if form_fault_at(table, rows, d, r) {
            return Some(r);
        }
    }
    None
}
