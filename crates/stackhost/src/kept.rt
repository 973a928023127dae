// The stack in a lent record of 33 bytes: place 0 first, and the pointer last.
ghost use Rattle.std.specs.Prelude.{◌≡◌, ◌≤◌, ◌++◌, length, take, drop};
ghost use Rattle.stackhost.specs.StackCalls.{stack_in, stack_bytes};

use rules::chip::Stack;

pub const STACK_SIZE: usize = 32;

pub const KEPT_SIZE: usize = 33;

// The thirty-two bytes of the record.
pub fn bytes_in(kept: &[u8]) -> [u8; STACK_SIZE]
    requires { 32 ≤ length kept.now }
    ensures { result ≡ take 32 kept.now }
{
    *kept.first_chunk().unwrap()
}

// Thirty-two bytes into the record.
pub fn bytes_kept(bytes: [u8; STACK_SIZE], kept: &mut [u8])
    requires { 32 ≤ length kept.old }
    ensures { kept.new ≡ bytes ++ drop 32 kept.old }
{
    *kept.first_chunk_mut().unwrap() = bytes;
}

// The stack that the record holds.
pub fn stack_in(kept: &[u8]) -> Stack
    requires { length kept.now ≡ 33 }
    ensures { result ≡ stack_in kept.now }
{
    Stack {
        bytes: bytes_in(kept),
        pointer: kept[STACK_SIZE],
    }
}

// Another stack into the record.
pub fn stack_kept(s: Stack, kept: &mut [u8])
    requires { length kept.old ≡ 33 }
    ensures { kept.new ≡ stack_bytes s }
{
    bytes_kept(s.bytes, kept);
    kept[STACK_SIZE] = s.pointer;
}
