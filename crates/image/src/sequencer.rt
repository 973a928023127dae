// The sequencer of R-1 in the bytes of an image: its phase, what the phase drives, and the whole of it by value.
#![tactic(auto, unfolding(crate::specs::Image::state_at, rules::specs::Seen::is_phase, rules::specs::Seen::phase_number, rules::specs::Seen::phase_bsy, rules::specs::Seen::phase_sel, rules::specs::Seen::phase_drives, rules::specs::Seen::own_id, rules::specs::Seen::other_id, rules::specs::Seen::phase_data))]

ghost use Rattle.std.specs.Prelude.{◌≡◌, ◌%◌, ◌^◌, ◌<◌};
ghost use Rattle.std.proofs.lemmas.List.Edits.{sets};
ghost use Rattle.rules.specs.Changed.{with_sequencer};
ghost use Rattle.rules.specs.Counter.{counter_size};
ghost use Rattle.rules.specs.Seen.{is_phase, phase_bsy, phase_sel, phase_drives, phase_data};
ghost use Rattle.rules.specs.Registers.{scsiid_of};
ghost use Rattle.rules.specs.declared.chip.Phase.TheVariants.{Arbitrating};
ghost use Rattle.image.specs.Image.{IsImage, image_of, state_at, phase_of, sequencer_byte, sequencer_bytes, selection_byte, selection_of};
ghost use Rattle.image.specs.Layout.{sequencer_place};

use crate::bytes::number_of;
use crate::layout::{
    Image, SELECTION_LATCHES, SELID, SEQUENCER, TICKS_HIGH, TICKS_LOW, TICKS_MIDDLE,
};
use laws::byte_of;
use rules::chip::{Phase, Selection, Sequencer};

// From a number to an enum only a match leads; 8 and up is no phase's number.
fn phase_of(n: u8) -> Phase
    ensures { result ≡ phase_of n }
{
    match n {
        0 => Phase::Idle,
        1 => Phase::Waiting,
        2 => Phase::Arbitrating,
        3 => Phase::Clearing,
        4 => Phase::Selecting,
        5 => Phase::Holding,
        6 => Phase::Answering,
        7 => Phase::Answered,
        _ => Phase::Idle,
    }
}

pub fn phase(m: &Image) -> Phase
    ensures { result ≡ (state_at m.now).sequencer.phase }
{
    phase_of(m[SEQUENCER] % 8)
}

// What each phase drives, a function for each definition. "arbitrating BSY; clearing BSY, SEL; answered BSY"
pub fn drives_bsy(p: Phase) -> bool
    ensures { result ≡ phase_bsy p }
{
    matches!(p, Phase::Arbitrating | Phase::Clearing | Phase::Answered)
}

// "clearing BSY, SEL; selecting, holding SEL"
pub fn drives_sel(p: Phase) -> bool
    ensures { result ≡ phase_sel p }
{
    matches!(p, Phase::Clearing | Phase::Selecting | Phase::Holding)
}

// Does the sequencer give data?
pub fn drives_data(p: Phase) -> bool
    ensures { result ≡ phase_drives p }
{
    matches!(
        p,
        Phase::Arbitrating | Phase::Clearing | Phase::Selecting | Phase::Holding
    )
}

pub fn is_arbitrating(p: Phase) -> bool
    ensures { result ≡ is_phase Arbitrating p }
{
    p == Phase::Arbitrating
}

// "1 shifted by" a number of three bits
fn id_bit(number: u8) -> u8
    ensures { result ≡ 2 ^ (number % 8) }
{
    1 << (number % 8)
}

// "arbitrating, clearing own; selecting, holding own and other", own by OID, other by TID of 345h as written
pub fn phase_data(p: Phase, id: u8) -> u8
    ensures { result ≡ phase_data p (scsiid_of id) }
{
    let own = id_bit((id >> 4) % 8);
    let other = id_bit((id >> 0) % 8);
    match p {
        Phase::Arbitrating | Phase::Clearing => own,
        Phase::Selecting | Phase::Holding => own | other,
        Phase::Idle | Phase::Waiting | Phase::Answering | Phase::Answered => 0,
    }
}

fn selection_of(v: u8) -> Selection
    ensures { result ≡ selection_of v }
{
    Selection {
        seldo: (v >> 3) % 2 == 1,
        seldi: (v >> 2) % 2 == 1,
        selingo: (v >> 1) % 2 == 1,
        selto: (v >> 0) % 2 == 1,
    }
}

pub fn selection_byte(k: Selection) -> u8
    ensures { result ≡ selection_byte k }
{
    byte_of(
        false, false, false, false, k.seldo, k.seldi, k.selingo, k.selto,
    )
}

pub fn sequencer_byte(q: Sequencer) -> u8
    ensures { result ≡ sequencer_byte q }
{
    byte_of(
        q.status.seldo,
        q.status.seldi,
        q.status.selto,
        q.noted,
        q.status.selingo,
        false,
        false,
        false,
    ) + u8::from(q.phase)
}

// The sequencer by value.
pub fn sequencer(m: &Image) -> Sequencer
    ensures { result ≡ (state_at m.now).sequencer }
{
    let v = m[SEQUENCER];
    Sequencer {
        phase: phase(m),
        ticks: number_of(m[TICKS_LOW], m[TICKS_MIDDLE], m[TICKS_HIGH]),
        noted: (v >> 4) % 2 == 1,
        selid: m[SELID],
        status: Selection {
            seldo: (v >> 7) % 2 == 1,
            seldi: (v >> 6) % 2 == 1,
            selingo: (v >> 3) % 2 == 1,
            selto: (v >> 5) % 2 == 1,
        },
        latches: selection_of(m[SELECTION_LATCHES]),
    }
}

// The sequencer's bytes, whatever stands in the others.
pub fn sequencer_placed(m: &mut Image, q: Sequencer)
    ensures { (m.new ≡ sets m.old sequencer_place (sequencer_bytes q)) × (q.selid < 256) }
{
    let [_, high, middle, low] = q.ticks.to_be_bytes();
    m[SEQUENCER] = sequencer_byte(q);
    m[SELECTION_LATCHES] = selection_byte(q.latches);
    m[TICKS_HIGH] = high;
    m[TICKS_MIDDLE] = middle;
    m[TICKS_LOW] = low;
    m[SELID] = q.selid;
}

// Another sequencer in its bytes.
pub fn sequencer_put(m: &mut Image, q: Sequencer)
    requires image { IsImage m.old }
    requires ticks_lt_counter_size { q.ticks < counter_size }
    ensures { m.new ≡ image_of (with_sequencer q (state_at m.old)) }
{
    sequencer_placed(m, q);
}
