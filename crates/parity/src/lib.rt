// The ones of a byte and its parity. Document 01: "Parity driven makes the ones odd."
#![tactic(auto)]

ghost use Rattle.std.specs.Prelude.{◌≡◌, ◌+◌};
ghost use Rattle.rules.specs.Numbers.{ones, one, even};

// The number of ones of a byte, by the processor's count.
pub fn ones(v: u8) -> u8
    ensures { result ≡ ones v }
{
    u8::count_ones(v) as u8
}

// The parity that makes the ones odd.
pub fn parity_for(v: u8) -> bool
    ensures { result ≡ even (ones v) }
{
    ones(v) % 2 == 0
}

// Has a byte with its parity an even number of ones?
pub fn is_even(v: u8, parity: bool) -> bool
    ensures { result ≡ even (ones v + one parity) }
{
    (ones(v) + (parity as u8)) % 2 == 0
}
