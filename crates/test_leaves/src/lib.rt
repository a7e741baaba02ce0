// The proved leaves as C functions over numbers and slices, for tests from outside. A slice is a pointer and a length.
#![tactic(auto)]

ghost use Rattle.std.specs.Prelude.{◌≡◌};
ghost use Rattle.meaning.specs.Numerals as numerals;
ghost use Rattle.meaning.specs.Values.{monadic_of, operate};
ghost use Rattle.test_leaves.specs.Lent.{number_lent, value_lent, text_lent};

mod lending; // lending.rt: what is put into lent buffers
mod sheets; // sheets.rt: a readings sheet
mod tables; // tables.rt: a table's bytes, and the value of an expression of its rows

// 1 and the number at the start of `out`, if the field has the form and there is room; else 0.
#[unsafe(no_mangle)]
pub extern "C" fn leaf_number(field: &[u8], out: &mut [i32]) -> u32
    ensures { (result, out.new) ≡ number_lent (numerals.number field.now) out.old }
{
    let read = base_numbers::read_number(field);
    match read {
        None => 0,
        Some(z) => {
            if out.len() == 0 {
                return 0;
            }
            out[0] = z;
            1
        }
    }
}

// 0 and the value of a dyadic operator at the start of `out`, or the reason that there is none, 256 if there is no such operator.
#[unsafe(no_mangle)]
pub extern "C" fn leaf_dyadic(op: u32, x: i32, y: i32, out: &mut [i32]) -> u32
    ensures { (result, out.new) ≡ value_lent (operate op x y) out.old }
{
    lending::put_value(base_numbers::dyadic(op, x, y), out)
}

// The same of a monadic operator.
#[unsafe(no_mangle)]
pub extern "C" fn leaf_monadic(op: u32, x: i32, out: &mut [i32]) -> u32
    ensures { (result, out.new) ≡ value_lent (monadic_of op x) out.old }
{
    lending::put_value(base_numbers::monadic(op, x), out)
}

// The number's text at the start of `out`, and how many bytes it has; 0 if `out` is shorter than the longest text.
#[unsafe(no_mangle)]
pub extern "C" fn leaf_printed(z: i32, out: &mut [u8]) -> usize
    ensures { (result, out.new) ≡ text_lent (numerals.printed z) out.old }
{
    if out.len() < 11 {
        return 0;
    }
    let text = base_numbers::printed(z);
    let n = text.length;
    lending::put_bytes(&text.bytes, n, out);
    n
}
