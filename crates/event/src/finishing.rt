// B, C and D of an event that is done so far.
ghost use Rattle.std.specs.Prelude.{◌≡◌, cond};
ghost use Rattle.rules.specs.Step.{done};
ghost use Rattle.rules.specs.declared.codes.Code.TheVariants.{Done, BeyondLimit};
ghost use Rattle.event.specs.Outcomes.{Leaves};
ghost use Rattle.event.specs.Opening.{Ready};

use crate::before::Before;
use crate::closing::closed_in;
use crate::stepping::Outcome;
use image::bus::path;
use image::layout::{Image, STATUS};
use rules::codes::Code;
use sequencer::bus_in;
use settling::settle;

// 6 if B found a REQ beyond the limit, else 0.
fn code_of(beyond: bool) -> Code
    ensures { result ≡ cond beyond BeyondLimit Done }
{
    if beyond {
        Code::BeyondLimit
    } else {
        Code::Done
    }
}

pub fn finished(m: &mut Image, before: Before, ticks: u32, value: u16) -> Outcome
    requires { Ready m.old before ticks value }
    ensures { (w : Ready m.old before ticks value) → Leaves (done w.state w.event) m.new result }
{
    let status = m[STATUS];
    let beyond = bus_in(m, before.seen, ticks);
    let way = path(m);
    let t = settle(m);
    closed_in(m, before.enables, status, t.acks, way);
    Outcome {
        code: code_of(beyond),
        value,
        moves: t.moves,
        acks: t.acks,
        sent: t.sent,
    }
}
