// What document 01 allows a driver in a run, so that a host can check its own records; the theorems stand in proofs/.
#![tactic(auto)]

ghost use Rattle.std.specs.Prelude.{◌≡◌};
ghost use Rattle.runs.specs.Run.{keeps_run, write_allowed, run_allows};
ghost use Rattle.runs.specs.Cut.{cut_value};

use rules::records::Event;

// Does this byte, written to 341h, leave CLRSTCNT, SPIOEN and CLRCH 0?
#[tactic(auto, unfolding(crate::specs::Run::keeps_run))]
pub fn keeps_run(value: u8) -> bool
    ensures { result ≡ keeps_run value }
{
    ((value >> 4) % 2 == 0) & ((value >> 3) % 2 == 0) & ((value >> 1) % 2 == 0)
}

// Is this byte, written to 341h, a cut?
#[tactic(auto, unfolding(crate::specs::Cut::cut_value))]
pub fn is_cut(value: u8) -> bool
    ensures { result ≡ cut_value value }
{
    ((value >> 7) % 2 == 0) & keeps_run(value)
}

// Does a run allow this register write?
#[tactic(auto, unfolding(crate::specs::Run::write_allowed))]
pub fn write_allowed(offset: u8, value: u8) -> bool
    ensures { result ≡ write_allowed offset value }
{
    matches!(offset, 0x16 | 0x0B | 0x0C | 0x10 | 0x11 | 0x13 | 0x1D)
        | ((offset == 0x01) & keeps_run(value))
}

// Does a run allow this event?
pub fn run_allows(event: Event) -> bool
    ensures { result ≡ run_allows event }
{
    match event {
        Event::PowerReset => false,
        Event::Write { offset, value } => write_allowed(offset, value),
        Event::Read { .. }
        | Event::WordWrite(_)
        | Event::WordRead
        | Event::Drive(_)
        | Event::Ticks(_) => true,
    }
}
