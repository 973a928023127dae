// Demand 3 over what a driver has in its hands; the promise stands in specs/DemandThree.antt, its proof in proofs/.
#![tactic(auto)]

ghost use Rattle.std.specs.Prelude.{◌≡◌};
ghost use Rattle.driver.specs.Exchanges.{bytes_taken};

// The number that a driver makes of its three reads of the counter, 348h lowest.
pub fn bytes_taken(low: u8, middle: u8, high: u8) -> u32
    ensures { result ≡ bytes_taken low middle high }
{
    u32::from_le_bytes([low, middle, high, 0])
}
