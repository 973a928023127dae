// Words of a line, and the bytes that hex digits name.
ghost use Rattle.std.specs.Prelude.{◌≡◌, ◌==◌, position, take, drop};
ghost use Rattle.stored.specs.Words.{place_of, past, digit_value, is_hex, is_record, digit_at, byte_at, record_named};

// Where the first such byte stands.
fn place_of(text: &[u8], byte: u8) -> Option<usize>
    ensures { result ≡ position (λ b. b == byte) text.now }
{
    text.iter().position(|b| *b == byte)
}

// What stands before the first byte that is `end`, and what stands behind it: all and nothing where none is.
pub fn cut(text: &[u8], end: u8) -> (&[u8], &[u8])
    ensures before { result.0.now ≡ take (place_of end text.now) text.now }
    ensures behind { result.1.now ≡ drop (past (place_of end text.now) text.now) text.now }
{
    match place_of(text, end) {
        Some(at) => (&text[..at], &text[at + 1..]),
        None => (text, &text[text.len()..]),
    }
}

// The value of a hex digit; none of any other byte.
fn digit_value(b: u8) -> Option<usize>
    ensures { result ≡ digit_value b }
{
    place_of(b"0123456789ABCDEF", b)
}

fn is_hex(text: &[u8]) -> bool
    ensures { result ≡ is_hex text.now }
{
    text.iter().all(|b| digit_value(*b).is_some())
}

fn is_record(text: &[u8]) -> bool
    ensures { result ≡ is_record text.now }
{
    !text.is_empty() && text.len() <= 8 && text.len() % 2 == 0 && is_hex(text)
}

// Past the end of a text, 0.
fn digit_at(text: &[u8], i: usize) -> usize
    ensures { result ≡ digit_at text.now i }
{
    match text.get(i) {
        Some(b) => digit_value(*b).unwrap_or(0),
        None => 0,
    }
}

// The byte of two digits; an index in a u8, so that its double fits.
fn byte_at(text: &[u8], i: u8) -> u8
    ensures { result ≡ byte_at text.now i }
{
    let at = 2 * usize::from(i);
    (16 * digit_at(text, at) + digit_at(text, at + 1)) as u8
}

// A record's bytes, one to four: an array and how many of it count, since nothing here is on the heap.
#[derive(Clone, Copy)]
pub struct Named {
    pub bytes: [u8; 4],
    pub count: usize,
}

// The record that 2, 4, 6 or 8 hex digits name.
pub fn record_of(text: &[u8]) -> Option<Named>
    ensures { result ≡ record_named text.now }
{
    if !is_record(text) {
        return None;
    }
    Some(Named {
        bytes: [
            byte_at(text, 0),
            byte_at(text, 1),
            byte_at(text, 2),
            byte_at(text, 3),
        ],
        count: text.len() / 2,
    })
}
