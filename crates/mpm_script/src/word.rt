ghost use Rattle.std.specs.Prelude.{◌≡◌, ◌<◌, ◌≤◌, ◌==◌, length, slice_index};
ghost use Rattle.std.specs.List.{position_or_len, before_first, after_first};

/// The byte at a place; 00h after the text's end.
pub fn byte_at(text: &[u8], place: usize) -> u8
    ensures { result ≡ slice_index text.now place }
{
    if place < text.len() { text[place] } else { 0 }
}

/// The place of a byte, or the text's length.
pub fn place_of(text: &[u8], wanted: u8) -> usize
    ensures place { result ≡ position_or_len (λ byte. byte == wanted) text.now }
    ensures within { result ≤ length text.now }
{
    for (place, byte) in text.iter().enumerate() {
        if *byte == wanted {
            return place;
        }
    }
    text.len()
}

/// What stands before the first such byte.
pub fn before(text: &[u8], wanted: u8) -> &[u8]
    ensures { result.now ≡ before_first (λ byte. byte == wanted) text.now }
{
    &text[..place_of(text, wanted)]
}

/// What stands after the first such byte.
pub fn after(text: &[u8], wanted: u8) -> &[u8]
    ensures rest { result.now ≡ after_first (λ byte. byte == wanted) text.now }
    ensures size { 0 < length text.now → length result.now < length text.now }
{
    let place = place_of(text, wanted);
    if place < text.len() {
        &text[place + 1..]
    } else {
        &[]
    }
}
