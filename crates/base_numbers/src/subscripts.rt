// The place that a subscript means.
ghost use Rattle.std.specs.Prelude.{◌≡◌};
ghost use Rattle.meaning.specs.Values.{in_array};

use meaning::{Index, Value};

// Which of `size` places from `first` on a subscript means.
pub fn subscript(first: u32, size: u32, v: Value) -> Index
    ensures { result ≡ in_array first size v }
{
    match v {
        Value::Missing(k) => Index::Fails(k),
        Value::Number(x) => {
            if x < 0 {
                return Index::Fails(2);
            }
            let i = x as usize;
            if i < size as usize {
                return Index::At(first as usize + i);
            }
            Index::Fails(2)
        }
    }
}
