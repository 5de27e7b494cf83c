ghost use Rattle.std.specs.Prelude.{◌≡◌, ◌+◌, ◌≤◌, ◌++◌, length, take, drop};

// Copies `count` bytes of `from`, which begin at `start`, to the front of `into`.
pub fn copy_front(into: &mut [u8], from: &[u8], start: usize, count: usize)
    requires target { count ≤ length into.old }
    requires origin { start + count ≤ length from.now }
    ensures front { drop start from.now ≡ take count into.new ++ drop (start + count) from.now }
    ensures rest { into.new ≡ take count (drop start from.now) ++ drop count into.old }
{
    into[..count].copy_from_slice(&from[start..start + count]);
}
