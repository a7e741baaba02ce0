// What is put into lent buffers. Where there is no room, nothing is put.
ghost use Rattle.std.specs.Prelude.{◌≡◌, ◌++◌, ◌≤◌, length, take, drop, set};
ghost use Rattle.test_leaves.specs.Lent.{value_lent, verdict_lent, copied};

use meaning::{Value, Verdict};

// A number at the start of a buffer.
pub fn put_place(place: u32, out: &mut [u32])
    ensures { out.new ≡ set out.old 0 place }
{
    if 0 < out.len() {
        out[0] = place;
    }
}

// A value at the start of a buffer, and 0; or the reason that there is none, 256 for no operator or expression.
pub fn put_value(v: Value, out: &mut [i32]) -> u32
    ensures { (result, out.new) ≡ value_lent v out.old }
{
    match v {
        Value::Number(x) => {
            if 0 < out.len() {
                out[0] = x;
            }
            0
        }
        Value::Missing(k) => {
            if k == 0 {
                return 256;
            }
            k as u32
        }
    }
}

// A verdict's number, 0 if the table is accepted; the place of a refusal is put at the start of a buffer.
pub fn put_verdict(v: Verdict, out: &mut [u32]) -> u32
    ensures { (result, out.new) ≡ verdict_lent v out.old }
{
    match v {
        Verdict::Accepted => 0,
        Verdict::Rejected(number, place) => {
            put_place(place, out);
            number as u32
        }
    }
}

// The first n bytes of a text at the start of a buffer.
pub fn put_bytes(text: &[u8], n: usize, out: &mut [u8])
    requires { (n ≤ length text.now) × (n ≤ length out.old) }
    ensures { out.new ≡ take n text.now ++ drop n out.old }
{
    out[..n].copy_from_slice(&text[..n]);
}

// A list in a buffer of its length.
pub fn put_list<T: Copy>(list: &[T], out: &mut [T])
    ensures { out.new ≡ copied list.now out.old }
{
    if out.len() == list.len() {
        out.copy_from_slice(list);
    }
}
