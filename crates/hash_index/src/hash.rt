//! The hash of a text.
ghost use Rattle.std.specs.Prelude.{◌≡◌};
ghost use Rattle.hash_index.specs.Hashes.{text_hash};

/// The hash of these bytes, of 32 bits: a polynomial in 16,777,619 with the bytes as coefficients.
pub fn text_hash(text: &[u8]) -> u32
    ensures { result ≡ text_hash text.now }
{
    let mut hash: u64 = 2_166_136_261;
    for byte in text {
        hash = (hash * 16_777_619 + u64::from(*byte)) % 4_294_967_296;
    }
    hash as u32
}
