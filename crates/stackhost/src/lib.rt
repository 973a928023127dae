// R-4: the function for a host program that holds the stack apart from the chip, exported by `stackhost_c`.
#![tactic(auto)]

ghost use Rattle.std.specs.Prelude.{◌≡◌, length};
ghost use Rattle.rules.specs.declared.records.Event.TheVariants.{Write, Read};
ghost use Rattle.stack.specs.Box.{doing_event, doing};
ghost use Rattle.stackhost.specs.StackCalls.{found_in, stack_call, call_done, stack_called};

use crate::kept::{KEPT_SIZE, stack_in, stack_kept};
use registers::bytes::{dmacntrl1_byte, dmacntrl1_of};
use rules::records::Event;
use stack::lent::{Access, stack_accessed};

pub mod kept;

// Offsets from 340h.
const STACK_OFFSET: u8 = 0x1D;

const DMACNTRL1_OFFSET: u8 = 0x13;

// A write at an offset from 340h.
#[tactic(auto, unfolding(stack::specs::Box::doing_event))]
pub fn written_at(offset: u8, value: u8) -> Option<Access>
    ensures { result ≡ found_in (doing_event (Write offset value)) }
{
    match offset {
        STACK_OFFSET => Some(Access::WriteStack(value)),
        DMACNTRL1_OFFSET => Some(Access::WriteDmacntrl1(value)),
        _ => None,
    }
}

// A read at an offset from 340h.
#[tactic(auto, unfolding(stack::specs::Box::doing_event))]
pub fn read_at(offset: u8) -> Option<Access>
    ensures { result ≡ found_in (doing_event (Read offset)) }
{
    match offset {
        STACK_OFFSET => Some(Access::ReadStack),
        DMACNTRL1_OFFSET => Some(Access::ReadDmacntrl1),
        _ => None,
    }
}

// An event.
#[tactic(auto, unfolding(stack::specs::Box::doing_event))]
pub fn found_in(e: Event) -> Option<Access>
    ensures { result ≡ found_in (doing_event e) }
{
    match e {
        Event::Write { offset, value } => written_at(offset, value),
        Event::Read { offset } => read_at(offset),
        Event::PowerReset
        | Event::WordWrite(_)
        | Event::WordRead
        | Event::Drive(_)
        | Event::Ticks(_) => None,
    }
}

// A decoded record.
#[tactic(auto, unfolding(stack::specs::Box::doing))]
pub fn asked_by(d: Option<Event>) -> Option<Access>
    ensures { result ≡ found_in (doing d) }
{
    found_in(d?)
}

// An access on the stack and the bits of 353h where they are kept, and the value that it gives.
#[tactic(auto, using(crate::proofs::Lengths::one_set), unfolding(crate::specs::StackCalls::call_done))]
pub fn answered(access: Access, stack: &mut [u8], control: &mut [u8], value: &mut [u8])
    requires { (length stack.old ≡ 33) × (length control.old ≡ 1) × (length value.old ≡ 1) }
    ensures { stack_call stack.new control.new value.new 0 ≡ call_done access stack.old control.old }
{
    let after = stack_accessed(access, dmacntrl1_of(control[0]), stack_in(stack));
    stack_kept(after.stack, stack);
    control[0] = dmacntrl1_byte(after.control, 0);
    value[0] = after.value;
}

// One access to 35Dh or 353h: the code, 0 or 1. `event` is the record of four bytes; where the code is 1 every buffer is as it was.
#[tactic(auto, unfolding(crate::specs::StackCalls::stack_called))]
pub fn rabenteig_stack(stack: &mut [u8], control: &mut [u8], event: &[u8], value: &mut [u8]) -> u8
    ensures { stack_call stack.new control.new value.new result ≡ stack_called stack.old control.old event.now value.old }
{
    let fits = (stack.len() == KEPT_SIZE) & (control.len() == 1) & (value.len() == 1);
    if !fits {
        return 1;
    }
    let Some(access) = asked_by(wire::decode(event)) else {
        return 1;
    };
    answered(access, stack, control, value);
    0
}
