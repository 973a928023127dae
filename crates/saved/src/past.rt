// "every byte past a count 0"
ghost use Rattle.std.specs.Prelude.{◌≡◌, ◌≤◌, bit_or, fold, length};
ghost use Rattle.saved.specs.Tests.{Fitting, zero_between, past_clear};

use image::layout::{HOST_BYTES, HOST_COUNT, Image, SCSI_BYTES, SCSI_COUNT, SIZE, STACK_BYTES};

// All bytes joined, and not looked at one by one, so that many are taken at a time.
fn joined(bytes: &[u8]) -> u8
    ensures { result ≡ fold bit_or 0 bytes.now }
{
    bytes.iter().fold(0, |any, byte| any | *byte)
}

// The bytes from one place up to another.
#[tactic(auto, using(crate::proofs::Zeros::joined_zero))]
fn is_zero(m: &[u8], from: usize, to: usize) -> bool
    requires from_le_to { from ≤ to }
    requires to_in_bounds { to ≤ length m.now }
    ensures { result ≡ zero_between m.now from to }
{
    joined(&m[from..to]) == 0
}

#[tactic(auto, unfolding(crate::specs::Tests::past_clear))]
pub fn past_clear(m: &Image) -> bool
    requires { Fitting m.now }
    ensures { result ≡ past_clear m.now }
{
    let scsi = SCSI_BYTES + usize::from(m[SCSI_COUNT]);
    let host = HOST_BYTES + usize::from(m[HOST_COUNT]);
    is_zero(m, scsi, STACK_BYTES) & is_zero(m, host, SIZE)
}
