// C, settling, on the bytes of one array: "Repeat the first that is possible, until neither is".
#![tactic(auto)]

ghost use Rattle.std.specs.Prelude.{◌≡◌, false, ◌-◌, ◌≤◌};
ghost use Rattle.rules.specs.StepC.{conditions, can_move};
ghost use Rattle.image.specs.Image.{IsImage, state_at};
ghost use Rattle.settling.specs.Looks.{looked_at, may_shake};
ghost use Rattle.settling.specs.Settles.{Settles};

use fifos::Sent;
use image::bits::{automatic_ack, scsien, write};
use image::bus::{matched, path, req_seen, synchronous};
use image::layout::{Image, LINES_DATA, OFFSET};
use rules::chip::Conditions;

pub mod moves;
pub mod shakes;

// What settling tells of: the bytes sent with their count, the moves, the ACKs. The bytes stand first, so that the whole is copied by
// words that were stored as such.
#[derive(Clone, Copy)]
pub struct Told {
    pub sent: Sent,
    pub moves: u8,
    pub acks: u8,
}

// "Handshake, if SCSIEN, path, matched."
#[tactic(auto, unfolding(image::specs::Image::state_at, rules::specs::StepC::conditions))]
fn enabled(m: &Image) -> bool
    ensures { result ≡ (conditions (state_at m.now)).enabled }
{
    path(m) && scsien(m) && matched(m)
}

// What settling looks at and does not change; where a byte is stored, the lines alone are seen.
#[tactic(auto, unfolding(image::specs::Image::state_at, rules::specs::StepC::conditions, crate::specs::Looks::looked_at))]
pub fn conditions_of(m: &Image) -> Conditions
    ensures { result ≡ looked_at (state_at m.now) }
{
    Conditions {
        path: path(m),
        enabled: enabled(m),
        outbound: write(m),
        synchronous: synchronous(m),
        req: req_seen(m),
        byte: m[LINES_DATA],
    }
}

// Whether a handshake can come at all.
#[tactic(auto, unfolding(image::specs::Image::state_at, crate::specs::Looks::may_shake))]
fn possible(m: &Image) -> bool
    ensures { result ≡ may_shake (state_at m.now) }
{
    if synchronous(m) {
        0 < m[OFFSET]
    } else {
        req_seen(m) && !automatic_ack(m)
    }
}

// Handshakes, and the moves after each; made are the moves before them.
fn shaking(m: &mut Image, c: Conditions, made: u8) -> Told
    requires image { IsImage m.old }
    requires m_value { can_move c (state_at m.old).transfer ≡ false }
    requires made_bound { made ≤ 16 }
    ensures { (made ≤ result.moves) × Settles m.old c m.new (record { moves = result.moves - made; acks = result.acks; sent = result.sent }) }
{
    let mut moves = made;
    let mut acks = 0u8;
    let mut sent = fifos::empty();
    // Each turn changes what the test looks at.
    while shakes::can_handshake(m, c) {
        sent = shakes::shaken(m, c, sent);
        acks += 1;
        moves += moves::moved(m, c);
    }
    Told { moves, acks, sent }
}

// Moves alone, where no handshake can come.
fn moving(m: &mut Image) -> Told
    requires image { IsImage m.old }
    requires m_value { may_shake (state_at m.old) ≡ false }
    ensures { Settles m.old (conditions (state_at m.old)) m.new result }
{
    let c = conditions_of(m);
    Told {
        moves: moves::moved(m, c),
        acks: 0,
        sent: fifos::empty(),
    }
}

// Settling of an event: without a path nothing is possible; moves do not change whether a handshake can come.
pub fn settle(m: &mut Image) -> Told
    requires { IsImage m.old }
    ensures { Settles m.old (conditions (state_at m.old)) m.new result }
{
    if !path(m) {
        return Told {
            moves: 0,
            acks: 0,
            sent: fifos::empty(),
        };
    }
    if !possible(m) {
        return moving(m);
    }
    let c = conditions_of(m);
    let moves = moves::moved(m, c);
    shaking(m, c, moves)
}
