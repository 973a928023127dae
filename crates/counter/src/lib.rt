// The transfer counter: document 01, "The counter reads and writes as 24 bits, 348h lowest."; its step is R-6's.
#![tactic(auto)]

ghost use Rattle.std.specs.Prelude.{◌≡◌, ◌<◌};
ghost use Rattle.rules.specs.Counter.{counter_size, stepped_to, counter_step, counter_byte};
ghost use Rattle.rules.specs.declared.counts.Direction.TheVariants.{Up, Down};
ghost use Rattle.counter.specs.Steps.{counter_steps};

use rules::counts::{CounterStep, Direction};

const COUNTER_SIZE: u32 = 16777216;

// The counter after a step; reduced first, so that the sum fits at every number.
fn stepped_to(direction: Direction, n: u32) -> u32
    ensures { result ≡ stepped_to direction n }
{
    match direction {
        Direction::Up => (n % COUNTER_SIZE + 1) % COUNTER_SIZE,
        Direction::Down => (n % COUNTER_SIZE + 16777215) % COUNTER_SIZE,
    }
}

// "says besides the new value whether it passed its end": it comes to 0
pub fn counter_step(direction: Direction, n: u32) -> CounterStep
    ensures { result ≡ counter_step direction n }
{
    let value = stepped_to(direction, n);
    CounterStep {
        value,
        passed: value == 0,
    }
}

// Steps from a number of 24 bits, up: the end is passed where the sum goes beyond them.
fn steps_up(n: u32, k: u8) -> CounterStep
    requires { n < counter_size }
    ensures { result ≡ counter_steps Up k n }
{
    let sum = n + (k as u32);
    CounterStep {
        value: sum % COUNTER_SIZE,
        passed: 16777215 < sum,
    }
}

// And down: the end is passed where the steps are as many as the number, which from 0 they never are.
fn steps_down(n: u32, k: u8) -> CounterStep
    requires { n < counter_size }
    ensures { result ≡ counter_steps Down k n }
{
    let steps = k as u32;
    CounterStep {
        value: (n + (COUNTER_SIZE - steps)) % COUNTER_SIZE,
        passed: (0 < n) & (n <= steps),
    }
}

// The step k times, at once: the last value, and whether one of them passed the end; no step at all leaves any number as it is.
pub fn counter_steps(direction: Direction, n: u32, k: u8) -> CounterStep
    ensures { result ≡ counter_steps direction k n }
{
    if k == 0 {
        return CounterStep {
            value: n,
            passed: false,
        };
    }
    // One step is the step itself: that is what an ACK takes.
    if k == 1 {
        return counter_step(direction, n);
    }
    match direction {
        Direction::Up => steps_up(n % COUNTER_SIZE, k),
        Direction::Down => steps_down(n % COUNTER_SIZE, k),
    }
}

// Byte k of the counter, from the lowest.
pub fn counter_byte(k: u32, n: u32) -> u8
    ensures { result ≡ counter_byte k n }
{
    if k < 4 {
        ((n >> (8 * k)) % 256) as u8
    } else {
        0
    }
}
