// Bytes with their count, by value, in any number of places: the two FIFOs, and the bytes that the Normal-mode ACKs of an event
// sent. Each has one form: the oldest byte at 0, zeros past the count.
#![tactic(auto)]

ghost use Rattle.std.specs.Prelude.{◌≡◌, [], ◌∷◌, ◌++◌, ◌+◌, ◌<◌, ◌≤◌, drop, length};
ghost use Rattle.rules.specs.Numbers.{padded};
ghost use Rattle.rules.specs.Chips.{fifo_view, fifo_of};
ghost use Rattle.fifos.specs.Fifos.{FifoTidy};

use rules::chip::Fifo;

// "those sent by Normal-mode ACKs in this event, in order": eight bytes, handed back by value with their count.
pub type Sent = Fifo<8>;

pub fn empty<const N: usize>() -> Fifo<N>
    ensures { result ≡ fifo_of N [] }
{
    Fifo {
        bytes: [0u8; N],
        count: 0,
    }
}

// Without its k oldest bytes: the others move to the front, and zeros follow.
pub fn popped<const N: usize>(f: Fifo<N>, k: usize) -> Fifo<N>
    ensures { result ≡ fifo_of N (drop k (fifo_view f.entry)) }
{
    let n = f.count.min(N);
    if n < k {
        return empty();
    }
    let mut g = f;
    let places = &mut g.bytes[..];
    places.copy_within(k..n, 0);
    places[n - k..].fill(0);
    g.count = n - k;
    g
}

// Any value of the struct in its one form.
pub fn tidied<const N: usize>(f: Fifo<N>) -> Fifo<N>
    ensures { result ≡ fifo_of N (fifo_view f.entry) }
{
    popped(f, 0)
}

// One byte more.
pub fn one_more<const N: usize>(f: Fifo<N>, b: u8) -> Fifo<N>
    requires count_bound { f.count < N }
    requires tidy { FifoTidy f }
    ensures { result ≡ fifo_of N (fifo_view f.entry ++ (b ∷ [])) }
{
    let mut g = f;
    g.bytes[g.count] = b;
    g.count += 1;
    g
}

// The bytes of one, then those of another.
pub fn joined<const N: usize>(a: Fifo<N>, b: Fifo<N>) -> Fifo<N>
    requires tidy { FifoTidy a }
    requires tidy_2 { FifoTidy b }
    requires count_bound { a.count + b.count ≤ N }
    ensures { result ≡ fifo_of N (fifo_view a.entry ++ fifo_view b.entry) }
{
    let end = a.count + b.count;
    let sent = &b.bytes[..];
    let mut f = a;
    let places = &mut f.bytes[..];
    places[a.count..end].copy_from_slice(&sent[..b.count]);
    f.count = end;
    f
}
