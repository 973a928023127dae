// The stack: document 01, "35Dh uses the place the pointer names, then the pointer goes up one, modulo 32 with ENSTK32, else
// modulo 16 with bit 4 ignored and then 0."
#![tactic(auto)]

ghost use Rattle.std.specs.Prelude.{◌≡◌, ◌+◌, ◌%◌};
ghost use Rattle.rules.specs.Stack.{stack_size, stack_place, stack_byte, pointer_after, stack_read, stack_written, pointed};

use rules::chip::Stack;

pub mod lent;

// The place that a pointer names.
pub fn place_of(enstk32: bool, pointer: u8) -> u8
    ensures { result ≡ pointer % stack_size enstk32 }
{
    if enstk32 { pointer % 32 } else { pointer % 16 }
}

// The pointer after it.
pub fn next_of(enstk32: bool, pointer: u8) -> u8
    ensures { result ≡ (pointer % stack_size enstk32 + 1) % stack_size enstk32 }
{
    place_of(enstk32, place_of(enstk32, pointer) + 1)
}

// The place that 35Dh uses.
#[tactic(auto, unfolding(rules::specs::Stack::stack_place))]
pub fn stack_place(enstk32: bool, s: Stack) -> u8
    ensures { result ≡ stack_place enstk32 s }
{
    place_of(enstk32, s.pointer)
}

// What a read of 35Dh gives.
#[tactic(auto, using(crate::proofs::Places::place_lt), unfolding(rules::specs::Stack::stack_byte))]
pub fn stack_byte(enstk32: bool, s: Stack) -> u8
    ensures { result ≡ stack_byte enstk32 s }
{
    s.bytes[usize::from(stack_place(enstk32, s))]
}

// The pointer after an access to 35Dh.
#[tactic(auto, unfolding(rules::specs::Stack::pointer_after, rules::specs::Stack::stack_place))]
pub fn pointer_after(enstk32: bool, s: Stack) -> u8
    ensures { result ≡ pointer_after enstk32 s }
{
    next_of(enstk32, s.pointer)
}

// The stack after a read of 35Dh.
#[tactic(auto, unfolding(rules::specs::Stack::stack_read))]
pub fn stack_read(enstk32: bool, s: Stack) -> Stack
    ensures { result ≡ stack_read enstk32 s }
{
    Stack {
        pointer: pointer_after(enstk32, s),
        ..s
    }
}

// The stack after a write of 35Dh.
#[tactic(auto, using(crate::proofs::Places::place_lt), unfolding(rules::specs::Stack::stack_written, rules::specs::Stack::stack_read))]
pub fn stack_written(enstk32: bool, value: u8, s: Stack) -> Stack
    ensures { result ≡ stack_written enstk32 value s }
{
    let mut after = stack_read(enstk32, s);
    after.bytes[usize::from(stack_place(enstk32, s))] = value;
    after
}

// The stack after a write of 353h.
#[tactic(auto, unfolding(rules::specs::Stack::pointed))]
pub fn pointed(value: u8, s: Stack) -> Stack
    ensures { result ≡ pointed value s }
{
    Stack {
        pointer: value % 32,
        ..s
    }
}
