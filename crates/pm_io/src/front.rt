ghost use Rattle.std.specs.Prelude.{◌≡◌, length, min, take};

/// Copies as many bytes as both slices have from the front of one to the front of the other, and
/// says how many.
pub(crate) fn copy_front(from: &[u8], into: &mut [u8]) -> usize
    ensures count { result ≡ min (length from.now) (length into.new) }
    ensures copied { take result into.new ≡ take result from.now }
{
    let n = from.len().min(into.len());
    into[..n].copy_from_slice(&from[..n]);
    n
}
