//! The frame of packed bytes: whether entries, pairs and text lie where the counts say.
ghost use Rattle.std.specs.Prelude.{◌≡◌, ◌+◌, ◌*◌, ◌<◌, ◌≤◌, length, drop};
ghost use Rattle.std.specs.Simd.{first_chunks};
ghost use Rattle.packed.specs.Format.{word, entry_count, pair_count, pairs_from, text_from, good_pairs, framed};

/// A 16-bit number from its two bytes: every number of the format is read here.
pub(crate) fn word_of(low: u8, high: u8) -> u16
    ensures { result ≡ low + 256 * high }
{
    u16::from_le_bytes([low, high])
}

/// The 16-bit number at a byte.
pub(crate) fn read_word(bytes: &[u8], at: usize) -> u16
    requires { at + 1 < length bytes.now }
    ensures { result ≡ word bytes.now at }
{
    word_of(bytes[at], bytes[at + 1])
}

/// Where the pairs begin.
fn start_of_pairs(bytes: &[u8]) -> usize
    requires { 5 ≤ length bytes.now }
    ensures is { result ≡ pairs_from bytes.now }
    ensures few { result < 196611 }
{
    5 + 3 * usize::from(read_word(bytes, 1))
}

/// Where the text begins.
pub(crate) fn start_of_text(bytes: &[u8]) -> usize
    requires { 5 ≤ length bytes.now }
    ensures is { result ≡ text_from bytes.now }
    ensures few { result < 393217 }
{
    start_of_pairs(bytes) + 3 * usize::from(read_word(bytes, 3))
}

/// So many times three bytes, from a byte on.
fn triples(bytes: &[u8], from: usize, count: u16) -> &[[u8; 3]]
    requires { from + 3 * count ≤ length bytes.now }
    ensures is { result.now ≡ first_chunks 3 count (drop from bytes.now) }
    ensures len { length result.now ≡ count }
{
    let (triples, _) = bytes[from..from + 3 * usize::from(count)].as_chunks();
    triples
}

/// The entries: a kind and a 16-bit value each.
pub(crate) fn entries(bytes: &[u8]) -> &[[u8; 3]]
    requires { pairs_from bytes.now ≤ length bytes.now }
    ensures is { result.now ≡ first_chunks 3 (entry_count bytes.now) (drop 5 bytes.now) }
    ensures len { length result.now ≡ entry_count bytes.now }
{
    triples(bytes, 5, read_word(bytes, 1))
}

/// The pairs: a 16-bit offset into the text and a length each.
pub(crate) fn pairs(bytes: &[u8]) -> &[[u8; 3]]
    requires { text_from bytes.now ≤ length bytes.now }
    ensures is { result.now ≡ first_chunks 3 (pair_count bytes.now) (drop (pairs_from bytes.now) bytes.now) }
    ensures len { length result.now ≡ pair_count bytes.now }
{
    triples(bytes, start_of_pairs(bytes), read_word(bytes, 3))
}

/// Whether every pair is good: not empty, behind the one before, within the text.
fn are_pairs_good(bytes: &[u8]) -> bool
    requires { text_from bytes.now ≤ length bytes.now }
    ensures { result ≡ good_pairs bytes.now (pair_count bytes.now) }
{
    let text = start_of_text(bytes);
    let mut free = 0;
    for &[low, high, length] in pairs(bytes) {
        let offset = usize::from(word_of(low, high));
        let end = offset + usize::from(length);
        if end == offset || offset < free || text + end > bytes.len() {
            return false;
        }
        free = end;
    }
    true
}

/// Whether the frame is whole.
pub(crate) fn is_framed(bytes: &[u8]) -> bool
    ensures { result ≡ framed bytes.now }
{
    bytes.len() >= 5
        && bytes[0] == 1
        && start_of_text(bytes) <= bytes.len()
        && are_pairs_good(bytes)
}
