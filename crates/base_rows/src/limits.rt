// Refusal 6: running sums of what the declarations declare, held to the limits.
ghost use Rattle.std.specs.Prelude.{◌≡◌, false, suc};
ghost use Rattle.meaning.specs.Basics.{lowest};
ghost use Rattle.meaning.specs.Declarations.{declarations};
ghost use Rattle.meaning.specs.Verdict.{over_limit};
ghost use Rattle.base_rows.specs.Sums.{limit_sums, sums_over};
ghost use Rattle.base_rows.specs.Places.{place_of};

// What some declarations declare together.
#[derive(Clone, Copy)]
struct Sums {
    cells: u64,
    elements: u64,
    sources: u64,
    sinks: u64,
    capacity: u64,
}

// Whether a sum passes its limit.
fn over(s: Sums) -> bool
    ensures { result ≡ sums_over s }
{
    256 < s.cells || 256 < s.elements || 8 < s.sources || 8 < s.sinks || 1024 < s.capacity
}

// The sums with row r, of d declarations.
fn with_row(s: Sums, rows: &[i32], d: usize, r: usize) -> Sums
    requires { (d ≡ declarations rows.now) × ((s ≡ limit_sums rows.now r) × (sums_over s ≡ false)) }
    ensures { result ≡ limit_sums rows.now (suc r) }
{
    Sums {
        cells: s.cells + crate::cells_at(rows, d, r) as u64,
        elements: s.elements + crate::elements_at(rows, d, r) as u64,
        sources: s.sources + crate::host_channels_at(1, rows, d, r) as u64,
        sinks: s.sinks + crate::host_channels_at(2, rows, d, r) as u64,
        capacity: s.capacity + crate::capacity_at(rows, d, r) as u64,
    }
}

// The first declaration that passes a limit.
pub fn limit_fault(rows: &[i32]) -> Option<usize>
    ensures { result ≡ place_of (lowest (over_limit rows.now) (declarations rows.now)) }
{
    let d = crate::declarations(rows);
    let mut s = Sums {
        cells: 0,
        elements: 0,
        sources: 0,
        sinks: 0,
        capacity: 0,
    };
    for r in 0..d {
        s = with_row(s, rows, d, r);
        if over(s) {
            return Some(r);
        }
    }
    None
}
