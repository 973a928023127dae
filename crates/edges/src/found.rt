// What changed on the bus, read off the array; what is rare is tested first.
ghost use Rattle.std.specs.Prelude.{◌≡◌, ◌&&◌, get_or};
ghost use Rattle.rules.specs.Seen.{io_seen, connected, matched, path, synchronous};
ghost use Rattle.rules.specs.StepB.{quiet_after};
ghost use Rattle.edges.specs.From.{rst_rises_from, req_rises_from};
ghost use Rattle.edges.specs.Components.{reset_b, busy_b};
ghost use Rattle.edges.specs.Tests.{inbound_even, inbound_bad, past_limit, late_behind};
ghost use Rattle.image.specs.Image.{state_at};
ghost use Rattle.image.specs.Layout.{scsi_count_place};

use image::bits::{bsy_of_others, enspchk, parity_driven_by_others, sel_of_others};
use image::bus::{
    bsy_seen, connected, io_seen, limit, matched, path, quiet_added, req_seen, rst_seen, sel_seen,
    synchronous,
};
use image::layout::{Image, LINES_DATA, OFFSET, QUIET, SCSI_COUNT};
use image::sequencer::{drives_bsy, drives_sel, phase};
use parity::is_even;

// "RST rises"
#[tactic(auto, unfolding(crate::specs::From::rst_rises_from))]
pub fn rst_rises(m: &Image, was: bool) -> bool
    ensures { result ≡ rst_rises_from was (state_at m.now) }
{
    rst_seen(m) & !was
}

// "REQ rises and RST not seen"
#[tactic(auto, unfolding(crate::specs::From::req_rises_from))]
pub fn req_rises(m: &Image, was: bool) -> bool
    ensures { result ≡ req_rises_from was (state_at m.now) }
{
    req_seen(m) & !was & !rst_seen(m)
}

// "connected ... with IO seen"
pub fn inbound(m: &Image) -> bool
    ensures { result ≡ (connected (state_at m.now) && io_seen (state_at m.now)) }
{
    io_seen(m) && connected(m)
}

// The byte that others drive with its parity has an even number of ones.
#[tactic(auto, unfolding(image::specs::Image::state_at))]
pub fn is_bad(m: &Image) -> bool
    ensures { result ≡ inbound_even (state_at m.now) }
{
    is_even(m[LINES_DATA], parity_driven_by_others(m))
}

// Is this REQ to be checked for parity?
fn checked(m: &Image) -> bool
    ensures { result ≡ (connected (state_at m.now) && io_seen (state_at m.now) && (state_at m.now).registers.sxfrctl1.enspchk) }
{
    enspchk(m) && inbound(m)
}

// A parity error; the ones are only counted where it is to be checked.
fn inbound_bad(m: &Image) -> bool
    ensures { result ≡ inbound_bad (state_at m.now) }
{
    checked(m) && is_bad(m)
}

// A parity error at a REQ that rises.
pub fn parity_bad(m: &Image, rises: bool) -> bool
    ensures { result ≡ (rises && inbound_bad (state_at m.now)) }
{
    rises && inbound_bad(m)
}

// "If matched, path and synchronous"
pub fn synchronous_req(m: &Image, rises: bool) -> bool
    ensures { result ≡ (rises && matched (state_at m.now) && path (state_at m.now).registers && synchronous (state_at m.now)) }
{
    rises && synchronous(m) && path(m) && matched(m)
}

// "with offset at or above the limit, or IO seen and the SCSI FIFO holding 8", at a synchronous REQ
#[tactic(auto, unfolding(image::specs::Image::state_at))]
pub fn beyond_limit(m: &Image, req: bool) -> bool
    ensures { result ≡ (req && past_limit (get_or m.now scsi_count_place 0) (state_at m.now)) }
{
    req && ((limit(m) <= m[OFFSET]) | (io_seen(m) & (8 <= m[SCSI_COUNT])))
}

// "inbound with offset 0 and the SCSI FIFO not empty", at a REQ within the limit
#[tactic(auto, unfolding(image::specs::Image::state_at))]
pub fn late_byte(m: &Image, within: bool) -> bool
    ensures { result ≡ (within && late_behind (get_or m.now scsi_count_place 0) (state_at m.now)) }
{
    within && io_seen(m) & (m[OFFSET] == 0) & (0 < m[SCSI_COUNT])
}

// BSY or SEL seen, where a bus reset in the same event has taken those of 343h away.
pub fn busy(m: &Image, reset: bool) -> bool
    ensures { result ≡ busy_b reset (state_at m.now) }
{
    if reset {
        let p = phase(m);
        bsy_of_others(m) | drives_bsy(p) | sel_of_others(m) | drives_sel(p)
    } else {
        bsy_seen(m) | sel_seen(m)
    }
}

// "Quiet ticks: 0 if BSY or SEL is seen, else ticks add, stopping at 8"
#[tactic(auto, unfolding(rules::specs::StepB::quiet_after, image::specs::Image::state_at))]
pub fn quiet_after(m: &Image, reset: bool, ticks: u32) -> u8
    ensures { result ≡ quiet_after ticks (reset_b reset (state_at m.now)) }
{
    if busy(m, reset) {
        0
    } else {
        quiet_added(m[QUIET], ticks)
    }
}
