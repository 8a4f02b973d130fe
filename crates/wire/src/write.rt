// Numbers written to bytes. Where a number does not fit, nothing is written.
ghost use Rattle.std.specs.Prelude.{◌≡◌, [], ◌∷◌};
ghost use Rattle.wire.specs.Bytes.{bytes};
ghost use Rattle.wire.specs.Buffers.{put_in};

// One byte at a place. By a test and not by `get_mut`: that was tried, and once the byte is written a proof knows only
// how long the buffer is.
#[tactic(auto, using(crate::proofs::BufferLaws::writing))]
pub fn put8(s: &mut [u8], at: usize, v: u8)
    ensures { s.new ≡ put_in s.old at (v ∷ []) }
{
    if at < s.len() {
        s[at] = v;
    }
}

// Some bytes from a place on.
#[tactic(auto, using(crate::proofs::BufferLaws::writing))]
fn put_bytes(s: &mut [u8], at: usize, v: &[u8])
    ensures { s.new ≡ put_in s.old at v.now }
{
    if s.len() < v.len() {
        return;
    }
    if s.len() - v.len() < at {
        return;
    }
    s[at..at + v.len()].copy_from_slice(v);
}

// 16 bits at a place, the low byte first.
#[tactic(auto, unfolding(crate::specs::Bytes::bytes))]
pub fn put16(s: &mut [u8], at: usize, v: u16)
    ensures { s.new ≡ put_in s.old at (bytes 2 v) }
{
    put_bytes(s, at, &u16::to_le_bytes(v));
}

// 32 bits at a place, the low byte first.
#[tactic(auto, unfolding(crate::specs::Bytes::bytes))]
pub fn put32(s: &mut [u8], at: usize, v: u32)
    ensures { s.new ≡ put_in s.old at (bytes 4 v) }
{
    put_bytes(s, at, &u32::to_le_bytes(v));
}
