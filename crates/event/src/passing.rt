// Ticks after the first: from a chip at rest those between two changes only count, so that they are not walked one by one.
ghost use Rattle.std.specs.Prelude.{◌≡◌, ◌&&◌, eqb};
ghost use Rattle.rules.specs.Rest.{AtRest};
ghost use Rattle.image.specs.Image.{IsImage, state_at};
ghost use Rattle.event.specs.Totals.{Sums, told_together, Led, Rounds, Goes};

use crate::stepping::Outcome;
use fifos::joined;
use image::layout::Image;
use sequencer::skipping::{advanced_in, distance};
use settling::Told;

// The ticks that are left, and how many came since the chip was copied, where a copy is kept.
#[derive(Clone, Copy)]
pub struct Lap {
    pub left: u32,
    pub since: Option<u32>,
}

// What an event reports.
pub fn told(o: Outcome) -> Told
    ensures { result ≡ record { moves = o.moves; acks = o.acks; sent = o.sent } }
{
    Told {
        moves: o.moves,
        acks: o.acks,
        sent: o.sent,
    }
}

// What two parts of an event report, one after the other.
pub fn together(a: Told, b: Told) -> Told
    requires { Sums a.moves a.acks a.sent b }
    ensures { result ≡ told_together a b }
{
    Told {
        moves: a.moves + b.moves,
        acks: a.acks + b.acks,
        sent: joined(a.sent, b.sent),
    }
}

// Nothing moved, acknowledged or sent.
fn is_nothing(t: Told) -> bool
    ensures { result ≡ (eqb t.moves 0 && eqb t.acks 0 && eqb t.sent.count 0) }
{
    (t.moves == 0) & (t.acks == 0) & (t.sent.count == 0)
}

// Another copy of the chip. At rest, here and below: that holds between events only, so no type keeps it.
fn copied(m: &Image, spare: &mut Image, left: u32) -> Lap
    requires image { IsImage m.now }
    requires at_rest { AtRest (state_at m.now) }
    ensures { Rounds m.now left spare.new result }
{
    *spare = *m;
    Lap {
        left,
        since: Some(0),
    }
}

// "a data bit above OID held on a free bus, a round lost every 72 ticks; after one full lost round the rest is taken modulo 72":
// where the bytes are those of 72 ticks ago and nothing was reported.
fn rounds(m: &Image, spare: &mut Image, t: Told, lap: Lap) -> Lap
    requires image { IsImage m.now }
    requires at_rest { AtRest (state_at m.now) }
    requires leads { Led spare.old lap.since m.now t }
    ensures { Rounds m.now lap.left spare.new result }
{
    if lap.left < 144 {
        return Lap { since: None, ..lap };
    }
    match lap.since {
        Some(k) if k < 72 && is_nothing(t) => lap,
        Some(72) if is_nothing(t) && *m == *spare => Lap {
            left: lap.left % 72,
            since: None,
        },
        _ => copied(m, spare, lap.left),
    }
}

// Up to the next tick that can change more than the counts, with what is left after it; or all, where it is not reached.
pub fn onward(m: &mut Image, spare: &mut Image, t: Told, lap: Lap) -> Option<Lap>
    requires image { IsImage m.old }
    requires at_rest { AtRest (state_at m.old) }
    requires leads { Led spare.old lap.since m.old t }
    ensures { Goes (state_at m.old) lap.left m.new spare.new result }
{
    let r = rounds(m, spare, t, lap);
    let d = distance(m);
    if r.left < d {
        advanced_in(m, r.left);
        return None;
    }
    advanced_in(m, d - 1);
    Some(Lap {
        left: r.left - d,
        since: r.since.map(|k| k + d),
    })
}
