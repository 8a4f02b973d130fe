// A buffer filled from its first place to its last, by what a closure says of each place.
ghost use Rattle.std.specs.Prelude.{◌≡◌, ℕ, ◌<◌, ◌≤◌, ◌*◌, ◌/◌, length, slice_index, EachIndex};
ghost use Rattle.wire.specs.Bytes.{le};

use crate::write::put16;

// A byte each.
pub fn fill_bytes<F: Fn(usize) -> u8>(out: &mut [u8], f: F)
    requires { (k : ℕ) → k < length out.old → F.pre f k }
    ensures { EachIndex out.new (λ k. F.post f k (slice_index out.new k)) }
{
    for (k, slot) in out.iter_mut().enumerate() {
        *slot = f(k);
    }
}

// 16 bits each, the low byte first; a last byte that is over stays. By the place: `as_chunks_mut` and
// `chunks_exact_mut` were tried, and neither says what the buffer holds once its parts are written.
pub fn fill_pairs<F: Fn(usize) -> u16>(out: &mut [u8], f: F)
    requires { (k : ℕ) → k < length out.old / 2 → F.pre f k }
    ensures pairs { (k : ℕ) → k < length out.old / 2 → F.post f k (le 2 out.new (2 * k)) }
    ensures rest { (i : ℕ) → 2 * (length out.old / 2) ≤ i → slice_index out.new i ≡ slice_index out.old i }
{
    for k in 0..out.len() / 2 {
        put16(out, 2 * k, f(k));
    }
}
