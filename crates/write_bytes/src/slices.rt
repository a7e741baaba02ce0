// Parts of slices, cut off at their ends.
ghost use Rattle.std.specs.Prelude.{◌≡◌, ◌<◌, pos, length, get_or, take, drop};

// The number at a place.
pub fn number_at(s: &[i32], i: usize) -> i32
    requires { i < length s.now }
    ensures { result ≡ get_or s.now i (pos 0) }
{
    s[i]
}

// At most `size` elements from a place on.
pub fn part<T>(s: &[T], from: usize, size: usize) -> &[T]
    ensures { result.now ≡ take size (drop from s.now) }
{
    let rest = &s[from.min(s.len())..];
    &rest[..size.min(rest.len())]
}
