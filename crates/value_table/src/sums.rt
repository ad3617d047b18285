// The sum of a state: over n, the map, a zero, the holders, low byte first, the conditions and the star bits, as the holders. These are a record's
// bytes from n on.
// Each byte is added to 31 times the sum's remainder by 65521.
use state::State;

fn added(sum: u32, byte: u8) -> u32 {
    sum % 65521 * 31 + u32::from(byte)
}

fn with_bytes(before: u32, bytes: &[u8]) -> u32 {
    bytes.iter().fold(before, |sum, byte| added(sum, *byte))
}

fn with_words(before: u32, words: &[u16]) -> u32 {
    words
        .iter()
        .fold(before, |sum, word| with_bytes(sum, &word.to_le_bytes()))
}

pub(crate) fn of_state(s: &State) -> u32 {
    let head = added(with_bytes(added(0, s.n), &s.map), 0);
    let nodes = with_bytes(with_words(head, &s.holders), &s.conditions);
    with_words(nodes, &s.stars)
}

pub(crate) fn of_record(rec: &[u8]) -> u32 {
    rec.iter().skip(4).fold(0, |sum, byte| added(sum, *byte))
}
