// Bytes, fields and lines at a place of a lent buffer. Each function gives the place after what it wrote; what does not fit is left out.
#![tactic(auto)]

ghost use Rattle.std.specs.Prelude.{◌≡◌, ◌∷◌};
ghost use Rattle.meaning.specs.Texts.{comma};
ghost use Rattle.write_bytes.specs.Writing.{put, put_all, shown, line_of};

pub mod slices; // slices.rt: parts of slices

use base_numbers::Text;

// One byte.
fn put_byte(b: u8, out: &mut [u8], at: usize) -> usize
    ensures { (result, out.new) ≡ put b (at, out.old) }
{
    if at < out.len() {
        out[at] = b;
        return at + 1;
    }
    at
}

// Some bytes.
pub fn put_bytes(bytes: &[u8], out: &mut [u8], at: usize) -> usize
    ensures { (result, out.new) ≡ put_all bytes.now (at, out.old) }
{
    let mut place = at;
    for b in bytes {
        place = put_byte(*b, out, place);
    }
    place
}

// A comma and the bytes of a text.
fn put_field(text: Text, out: &mut [u8], at: usize) -> usize
    ensures { (result, out.new) ≡ put_all (comma ∷ shown text) (at, out.old) }
{
    let place = put_byte(b',', out, at);
    put_bytes(slices::part(&text.bytes, 0, text.length), out, place)
}

// A line of four fields.
pub fn put_line(
    word: &[u8],
    name: u32,
    position: u32,
    value: Text,
    out: &mut [u8],
    at: usize,
) -> usize
    ensures { (result, out.new) ≡ put_all (line_of word.now name position (shown value)) (at, out.old) }
{
    let mut place = put_bytes(word, out, at);
    place = put_field(base_numbers::decimal(name), out, place);
    place = put_field(base_numbers::decimal(position), out, place);
    place = put_field(value, out, place);
    put_byte(b'\n', out, place)
}
