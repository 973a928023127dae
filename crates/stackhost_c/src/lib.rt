// The export of `stackhost` for a program in C: it calls the function there, by the same contract.
#![tactic(auto)]

ghost use Rattle.std.specs.Prelude.{◌≡◌};
ghost use Rattle.stackhost.specs.StackCalls.{stack_call, stack_called};

// One access to 35Dh or 353h: the code, 0 or 1.
#[unsafe(no_mangle)]
pub extern "C" fn rabenteig_stack(
    stack: &mut [u8],
    control: &mut [u8],
    event: &[u8],
    value: &mut [u8],
) -> u8
    ensures { stack_call stack.new control.new value.new result ≡ stack_called stack.old control.old event.now value.old }
{
    stackhost::rabenteig_stack(stack, control, event, value)
}
