// R-4: the stack kept where it is. "The thirty-two stack bytes and their pointer are updated through one lent record." The work is
// done by the functions by value; these copy the record out and store what they give. A pointer past 31 is read as tidied.
ghost use Rattle.std.specs.Prelude.{◌≡◌, ◌%◌};
ghost use Rattle.rules.specs.Registers.{dmacntrl1_of, dmacntrl1_byte};
ghost use Rattle.rules.specs.Stack.{stack_byte, stack_read, stack_written, pointed};
ghost use Rattle.rules.specs.Chips.{stack_view};
ghost use Rattle.stack.specs.Accesses.{stack_accessed};

use crate::{stack_byte, stack_read, stack_written};
use registers::bytes::{dmacntrl1_byte, dmacntrl1_of};
use rules::chip::Stack;
use rules::registers::Dmacntrl1;

// A read of 35Dh: the byte at the pointer's place.
#[tactic(auto, using(crate::proofs::Tidied::tidied_byte, crate::proofs::Tidied::tidied_read))]
pub fn read_stack(enstk32: bool, s: &mut Stack) -> u8
    ensures { (result ≡ stack_byte enstk32 (stack_view s.old)) × (s.new ≡ stack_read enstk32 (stack_view s.old)) }
{
    let value = stack_byte(enstk32, *s);
    *s = stack_read(enstk32, *s);
    value
}

// A write of 35Dh.
#[tactic(auto, using(crate::proofs::Tidied::tidied_written))]
pub fn write_stack(enstk32: bool, value: u8, s: &mut Stack)
    ensures { s.new ≡ stack_written enstk32 value (stack_view s.old) }
{
    *s = stack_written(enstk32, value, *s);
}

// A write of 353h: PWRDWN and ENSTK32 come in with the byte and go out by value.
#[tactic(auto, using(crate::proofs::Tidied::tidied_pointed))]
pub fn write_dmacntrl1(value: u8, s: &mut Stack) -> Dmacntrl1
    ensures { (result ≡ dmacntrl1_of value) × (s.new ≡ pointed value (stack_view s.old)) }
{
    *s = crate::pointed(value, *s);
    dmacntrl1_of(value)
}

// A read of 353h changes nothing, so it takes the pointer by value.
pub fn read_dmacntrl1(control: Dmacntrl1, pointer: u8) -> u8
    ensures { result ≡ dmacntrl1_byte control (pointer % 32) }
{
    dmacntrl1_byte(control, pointer)
}

// An access to 35Dh or 353h, with the byte that is written.
#[derive(Clone, Copy)]
pub enum Access {
    ReadStack,
    WriteStack(u8),
    ReadDmacntrl1,
    WriteDmacntrl1(u8),
}

// What it leaves of 353h and of the stack, and the value read, else 0.
#[derive(Clone, Copy)]
pub struct Accessed {
    pub control: Dmacntrl1,
    pub stack: Stack,
    pub value: u8,
}

// Any access, by value: it lends its own copy, so that its callers have no reference to a stack.
#[tactic(auto, unfolding(crate::specs::Accesses::stack_accessed, rules::specs::Chips::stack_view))]
pub fn stack_accessed(access: Access, control: Dmacntrl1, s: Stack) -> Accessed
    ensures { result ≡ stack_accessed access control s }
{
    let mut left = Accessed {
        control,
        stack: s,
        value: 0,
    };
    match access {
        Access::ReadStack => left.value = read_stack(control.enstk32, &mut left.stack),
        Access::WriteStack(byte) => write_stack(control.enstk32, byte, &mut left.stack),
        Access::ReadDmacntrl1 => left.value = read_dmacntrl1(control, s.pointer),
        Access::WriteDmacntrl1(byte) => left.control = write_dmacntrl1(byte, &mut left.stack),
    }
    left
}
