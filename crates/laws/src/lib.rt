// Bits out of a number, eight bits as a byte; in proofs/ the laws on bits, lists and tables that every crate cites.
#![tactic(auto)]

ghost use Rattle.std.specs.Prelude.{◌≡◌};
ghost use Rattle.rules.specs.Numbers.{bit, byte_of};

// Bit k of a number.
pub fn bit_of(v: u32, k: u32) -> bool
    ensures { result ≡ bit v k }
{
    if k < 32 { (v >> k) & 1 == 1 } else { false }
}

// Eight bits as a byte, bit 7 first; the definition takes them one by one.
pub fn byte_of(b7: bool, b6: bool, b5: bool, b4: bool, b3: bool, b2: bool, b1: bool, b0: bool) -> u8
    ensures { result ≡ byte_of b7 b6 b5 b4 b3 b2 b1 b0 }
{
    ((b7 as u8) << 7)
        | ((b6 as u8) << 6)
        | ((b5 as u8) << 5)
        | ((b4 as u8) << 4)
        | ((b3 as u8) << 3)
        | ((b2 as u8) << 2)
        | ((b1 as u8) << 1)
        | (b0 as u8)
}
