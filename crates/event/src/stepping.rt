// One event on an image: A, then, if it was not refused, B, C and D, then the answer.
ghost use Rattle.std.specs.Prelude.{◌≡◌};
ghost use Rattle.rules.specs.Step.{step};
ghost use Rattle.image.specs.Image.{IsImage, state_at};
ghost use Rattle.event.specs.declared.stepping.Outcome.{Outcome};
ghost use Rattle.event.specs.Outcomes.{Leaves, Gives, ended_as};
ghost use Rattle.event.specs.Totals.{Sums, summed, added_to, told_of};

use crate::before::before_in;
use crate::finishing::finished;
use crate::opening::opened;
use crate::passing::{Lap, onward, together, told};
use effects::driving::ticked;
use fifos::Sent;
use image::layout::Image;
use reads::answers::answer_of;
use rules::codes::Code;
use settling::Told;

// What an event gives beside the new state; the bytes sent by value with their count. What settling told stands field by field, as the
// answer takes it.
#[derive(Clone, Copy)]
pub struct Outcome {
    pub code: Code,
    pub value: u16,
    pub moves: u8,
    pub acks: u8,
    pub sent: Sent,
}

// What a record gives: the sixteen bytes of its answer, and its code.
#[derive(Clone, Copy)]
pub struct Reply {
    pub code: Code,
    pub answer: [u8; 16],
}

// "A refused access has ACKs and moves 0 and no sent bytes".
fn ended(code: Code, value: u16) -> Outcome
    ensures { result ≡ ended_as code value }
{
    Outcome {
        code,
        value,
        moves: 0,
        acks: 0,
        sent: fifos::empty(),
    }
}

// "its moves, ACKs and bytes sent are those of its ticks together"
fn summed(first: Outcome, rest: Told) -> Outcome
    requires { Sums first.moves first.acks first.sent rest }
    ensures { result ≡ summed first.moves first.acks first.sent rest }
{
    let Told { moves, acks, sent } = together(told(first), rest);
    Outcome {
        code: Code::Done,
        value: 0,
        moves,
        acks,
        sent,
    }
}

// The first part of an event by itself, or with those before it.
fn added(before: Option<Outcome>, next: Outcome) -> Outcome
    requires { (o : Outcome) → before ≡ Some o → Sums o.moves o.acks o.sent (told_of next) }
    ensures { result ≡ added_to before next }
{
    match before {
        Some(o) => summed(o, told(next)),
        None => next,
    }
}

// A record on an image: A, then B, C and D of the event, or of each of its ticks that does more than count. spare is room for a copy.
pub fn outcome_of(m: &mut Image, bytes: &[u8], spare: &mut Image) -> Outcome
    requires { IsImage m.old }
    ensures { Leaves (step (state_at m.old) bytes.now) m.new result }
{
    let mut before = before_in(m);
    let a = match opened(m, bytes) {
        Ok(a) => a,
        Err(e) => return ended(e.code, e.value),
    };
    let one = a.ticks.min(1);
    let mut lap = Lap {
        left: a.ticks - one,
        since: None,
    };
    let mut so_far: Option<Outcome> = None;
    loop {
        let p = finished(m, before, one, a.value as u16);
        if so_far.is_none() & (lap.left == 0) {
            return p;
        }
        let o = added(so_far, p);
        let Some(next) = onward(m, spare, told(p), lap) else {
            return o;
        };
        lap = next;
        so_far = Some(o);
        before = before_in(m);
        // a tick is never refused
        let _ = ticked(m, 1);
    }
}

// A record on an image, and its answer.
pub fn stepped(m: &mut Image, bytes: &[u8], spare: &mut Image) -> Reply
    requires { IsImage m.old }
    ensures { Gives (step (state_at m.old) bytes.now) m.new result }
{
    let o = outcome_of(m, bytes, spare);
    Reply {
        code: o.code,
        answer: answer_of(m, o.code, o.value, o.moves, o.acks, o.sent.bytes),
    }
}
