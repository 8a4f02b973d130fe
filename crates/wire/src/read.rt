// Numbers read from bytes. A byte past the end counts as 0, so that every place has an answer.
ghost use Rattle.std.specs.Prelude.{◌≡◌, get_or, drop};
ghost use Rattle.wire.specs.Bytes.{le, IsRead};

// The byte at a place.
pub fn get8(s: &[u8], at: usize) -> u8
    ensures { result ≡ get_or s.now at 0 }
{
    s.get(at).copied().unwrap_or(0)
}

// The bytes from a place on; past the end none.
fn rest(s: &[u8], at: usize) -> &[u8]
    ensures { result.now ≡ drop at s.now }
{
    s.get(at..).unwrap_or(&[])
}

// The N bytes from a place. Where all are there, they are read with one test.
fn bytes_at<const N: usize>(s: &[u8], at: usize) -> [u8; N]
    ensures { IsRead s.now at N result }
{
    let rest = rest(s, at);
    if let Some(all) = rest.first_chunk() {
        return *all;
    }
    let mut bytes = [0; N];
    bytes[..rest.len()].copy_from_slice(rest);
    bytes
}

// The 16 bits at a place, the low byte first. A function for each size, which callers name; `from_le_bytes` is each
// type's own.
#[tactic(auto, using(crate::proofs::ByteLaws::le_read), unfolding(crate::specs::Bytes::le))]
pub fn get16(s: &[u8], at: usize) -> u16
    ensures { result ≡ le 2 s.now at }
{
    u16::from_le_bytes(bytes_at(s, at))
}

// The 32 bits at a place, the low byte first.
#[tactic(auto, using(crate::proofs::ByteLaws::le_read), unfolding(crate::specs::Bytes::le))]
pub fn get32(s: &[u8], at: usize) -> u32
    ensures { result ≡ le 4 s.now at }
{
    u32::from_le_bytes(bytes_at(s, at))
}

// The 64 bits at a place, the low byte first.
#[tactic(auto, using(crate::proofs::ByteLaws::le_read), unfolding(crate::specs::Bytes::le))]
pub fn get64(s: &[u8], at: usize) -> u64
    ensures { result ≡ le 8 s.now at }
{
    u64::from_le_bytes(bytes_at(s, at))
}
