// R-3: which buffers fit a string call. What it gives stands in specs/, the theorems in proofs/.
#![tactic(auto)]

ghost use Rattle.std.specs.Prelude.{◌≡◌};
ghost use Rattle.words.specs.Calls.{readable, writable};

// "a data buffer not of exactly two bytes a word": halved, since twice the number of words may not fit the word
pub fn is_readable(bytes: usize, words: usize) -> bool
    ensures { result ≡ readable bytes words }
{
    (bytes % 2 == 0) & (bytes / 2 == words)
}

// "in a write call a sent buffer of fewer than eight bytes a word"
pub fn is_writable(bytes: usize, words: usize, room: usize) -> bool
    ensures { result ≡ writable bytes words room }
{
    is_readable(bytes, words) & (words <= room / 8)
}
