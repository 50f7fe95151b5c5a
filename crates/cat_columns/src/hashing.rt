//! A hash of texts.
ghost use Rattle.std.specs.Prelude.{◌≡◌};
ghost use Rattle.cat_columns.specs.TextHash.{text_hash};

/// What the hash is multiplied by for each byte: 2^64 by the golden ratio, by which texts that differ in their last byte
/// fall far from each other.
const MULTIPLIER: u64 = 11_400_714_819_323_198_485;

/// The hash of a text, by which dictionaries have their hints and segments their filters of ids: a polynomial of its bytes,
/// modulo 2^64, whose upper half and whose lower half each fall evenly. No file has it. Who makes texts that share a hash
/// brings about searches that others are spared, and no more, so it need not be one that nobody can guess (Lucene:
/// `StringHelper.murmurhash3_x86_32`).
pub fn text_hash(text: &str) -> u64
    ensures { result ≡ text_hash text.now }
{
    let mut hash: u64 = 0;
    for byte in text.as_bytes() {
        hash = hash.wrapping_add(u64::from(*byte)).wrapping_mul(MULTIPLIER);
    }
    hash
}
