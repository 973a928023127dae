// The stored registers as bytes, and SSTAT3.
#![tactic(auto)]

ghost use Rattle.std.specs.Prelude.{◌≡◌};
ghost use Rattle.registers.specs.OffsetCount.{sstat3_of};

pub mod bytes;

// SSTAT3: the difference may go below zero, and wraps.
pub fn sstat3(offset: u8, count: u8) -> u8
    ensures { result ≡ sstat3_of offset count }
{
    std::num::wrapping_sub_u8(offset, count) % 16 * 16 + offset % 16
}
