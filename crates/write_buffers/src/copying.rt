// A list over the first places of a buffer, what is past it is left alone.
ghost use Rattle.std.specs.Prelude.{◌≡◌, ◌≤◌, length};
ghost use Rattle.write_buffers.specs.Replies.{past};

// Elements over the first places of a buffer.
pub fn copy_over<T: Copy>(list: &[T], to: &mut [T])
    requires { length list.now ≤ length to.old }
    ensures { to.new ≡ past list.now to.old }
{
    to[..list.len()].copy_from_slice(list);
}
