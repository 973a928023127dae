// The counter of an image, in three bytes, and the automatic ACK.
ghost use Rattle.std.specs.Prelude.{◌≡◌, true, ◌<◌};
ghost use Rattle.image.specs.Image.{image_of, state_at, IsImage};
ghost use Rattle.rules.specs.Changed.{with_counter, with_ack};
ghost use Rattle.datapath.specs.Fits.{counter_written, counter_stepped, counter_passes, counter_stepped_by, counter_passes_in};
ghost use Rattle.rules.specs.declared.counts.Direction.TheVariants.{Up, Down};

use counter::{counter_byte, counter_steps};
use image::bytes::number_of;
use image::layout::{ACK, COUNTER_HIGH, COUNTER_LOW, COUNTER_MIDDLE, Image};
use rules::counts::Direction;

// The counter, from its bytes.
fn counter_in(m: &Image) -> u32
    requires { IsImage m.now }
    ensures { result ≡ (state_at m.now).transfer.counter }
{
    number_of(m[COUNTER_LOW], m[COUNTER_MIDDLE], m[COUNTER_HIGH])
}

// A number as the counter, in its bytes.
fn counter_stored(m: &mut Image, n: u32)
    requires { IsImage m.old }
    ensures { m.new ≡ image_of (with_counter n (state_at m.old)) }
{
    m[COUNTER_LOW] = counter_byte(0, n);
    m[COUNTER_MIDDLE] = counter_byte(1, n);
    m[COUNTER_HIGH] = counter_byte(2, n);
}

// "CLRSTCNT zeroes the counter"
pub fn counter_zeroed(m: &mut Image)
    requires { IsImage m.old }
    ensures { m.new ≡ image_of (with_counter 0 (state_at m.old)) }
{
    counter_stored(m, 0);
}

// "The counter writes as 24 bits, 348h lowest": byte k from the lowest.
pub fn counter_byte_written(m: &mut Image, k: usize, value: u8)
    requires image { IsImage m.old }
    requires k_bound { k < 3 }
    ensures { m.new ≡ image_of (counter_written k value (state_at m.old)) }
{
    m[COUNTER_LOW - k] = value;
}

// All three bytes step n times.
fn carried_by(m: &mut Image, direction: Direction, n: u8) -> bool
    requires { IsImage m.old }
    ensures value { result ≡ counter_passes_in direction n (state_at m.old) }
    ensures m_after { m.new ≡ image_of (counter_stepped_by direction n (state_at m.old)) }
{
    let steps = counter_steps(direction, counter_in(m), n);
    counter_stored(m, steps.value);
    steps.passed
}

// Most often the low byte alone changes, and the end is not passed. Up and down differ in the test as well as in the sign.
fn stepped_up_by(m: &mut Image, n: u8) -> bool
    requires { IsImage m.old }
    ensures value { result ≡ counter_passes_in Up n (state_at m.old) }
    ensures m_after { m.new ≡ image_of (counter_stepped_by Up n (state_at m.old)) }
{
    let low = m[COUNTER_LOW];
    if low <= 255 - n {
        m[COUNTER_LOW] = low + n;
        return false;
    }
    carried_by(m, Direction::Up, n)
}

fn stepped_down_by(m: &mut Image, n: u8) -> bool
    requires { IsImage m.old }
    ensures value { result ≡ counter_passes_in Down n (state_at m.old) }
    ensures m_after { m.new ≡ image_of (counter_stepped_by Down n (state_at m.old)) }
{
    let low = m[COUNTER_LOW];
    if low > n {
        m[COUNTER_LOW] = low - n;
        return false;
    }
    carried_by(m, Direction::Down, n)
}

// The counter steps n times; the answer says whether one of the steps passed its end.
pub fn counter_stepped_by(m: &mut Image, direction: Direction, n: u8) -> bool
    requires { IsImage m.old }
    ensures value { result ≡ counter_passes_in direction n (state_at m.old) }
    ensures m_after { m.new ≡ image_of (counter_stepped_by direction n (state_at m.old)) }
{
    match direction {
        Direction::Up => stepped_up_by(m, n),
        Direction::Down => stepped_down_by(m, n),
    }
}

// The counter steps; the answer says whether it passed its end.
#[tactic(auto, using(counter::proofs::Steps::one_step))]
pub fn counter_stepped(m: &mut Image, direction: Direction) -> bool
    requires { IsImage m.old }
    ensures value { result ≡ counter_passes direction (state_at m.old) }
    ensures m_after { m.new ≡ image_of (counter_stepped direction (state_at m.old)) }
{
    counter_stepped_by(m, direction, 1)
}

// "turns automatic ACK on, adds one to the counter"; an initiator shows no end that is passed.
pub fn acknowledged(m: &mut Image)
    requires { IsImage m.old }
    ensures { m.new ≡ image_of (with_ack true (counter_stepped Up (state_at m.old))) }
{
    let _passed = counter_stepped(m, Direction::Up);
    m[ACK] = 1;
}
