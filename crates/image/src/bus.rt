// The lines that are seen and driven, and the words that document 01 makes of them, read off an image.
#![tactic(auto, unfolding(crate::specs::Image::state_at, rules::specs::Seen::rst_seen, rules::specs::Seen::sel_seen, rules::specs::Seen::bsy_seen, rules::specs::Seen::manual, rules::specs::Seen::automatic, rules::specs::Seen::normal, rules::specs::Seen::connected, rules::specs::Seen::path, rules::specs::Seen::synchronous, rules::specs::Seen::limit, rules::specs::Seen::ack_driven, rules::specs::Seen::ack_seen, rules::specs::Seen::byte_driving, rules::specs::Seen::byte_driven, rules::specs::Seen::driving, rules::specs::Seen::data_driven, rules::specs::Seen::data_seen))]

ghost use Rattle.std.specs.Prelude.{◌≡◌, ◌+◌, min};
ghost use Rattle.rules.specs.Seen.{rst_seen, sel_seen, bsy_seen, cd_seen, io_seen, msg_seen, req_seen, manual, automatic, normal, connected, matched, mismatched, path, synchronous, limit, ack_driven, ack_seen, byte_driving, byte_driven, driving, data_driven, data_seen};
ghost use Rattle.image.specs.Image.{registers_at, state_at};

use crate::bits::{
    automatic_ack, bsy_of_others, bsyo, dmaen, scsirsto, sel_of_others, selo, spioen, write,
};
use crate::layout::{
    Image, LAST, LINES_CONTROL, LINES_DATA, LINES_UPPER, SCSIDAT, SCSIID, SCSIRATE, SCSISIG,
};
use crate::sequencer::{drives_bsy, drives_data, drives_sel, is_arbitrating, phase, phase_data};

pub fn rst_seen(m: &Image) -> bool
    ensures { result ≡ rst_seen (state_at m.now) }
{
    ((m[LINES_UPPER] >> 0) % 2 == 1) | scsirsto(m)
}

pub fn bsy_seen(m: &Image) -> bool
    ensures { result ≡ bsy_seen (state_at m.now) }
{
    bsy_of_others(m) | bsyo(m) | drives_bsy(phase(m))
}

pub fn sel_seen(m: &Image) -> bool
    ensures { result ≡ sel_seen (state_at m.now) }
{
    sel_of_others(m) | selo(m) | drives_sel(phase(m))
}

// "never CD, IO, MSG, REQ": the chip drives none of them. One bit each, and each contract names another line.
pub fn cd_seen(m: &Image) -> bool
    ensures { result ≡ cd_seen (state_at m.now) }
{
    (m[LINES_CONTROL] >> 7) % 2 == 1
}

pub fn io_seen(m: &Image) -> bool
    ensures { result ≡ io_seen (state_at m.now) }
{
    (m[LINES_CONTROL] >> 6) % 2 == 1
}

pub fn msg_seen(m: &Image) -> bool
    ensures { result ≡ msg_seen (state_at m.now) }
{
    (m[LINES_CONTROL] >> 5) % 2 == 1
}

pub fn req_seen(m: &Image) -> bool
    ensures { result ≡ req_seen (state_at m.now) }
{
    (m[LINES_CONTROL] >> 1) % 2 == 1
}

// "Modes by SPIOEN, DMAEN: 0,0 Manual; 1,0 Automatic; 0,1 Normal; 1,1 none."
pub fn manual(m: &Image) -> bool
    ensures { result ≡ manual (registers_at m.now) }
{
    !spioen(m) & !dmaen(m)
}

pub fn automatic(m: &Image) -> bool
    ensures { result ≡ automatic (registers_at m.now) }
{
    spioen(m) & !dmaen(m)
}

pub fn normal(m: &Image) -> bool
    ensures { result ≡ normal (registers_at m.now) }
{
    !spioen(m) & dmaen(m)
}

// "Connected: BSY seen, SEL and RST not.", and "the phase is not arbitrating"
pub fn connected(m: &Image) -> bool
    ensures { result ≡ connected (state_at m.now) }
{
    bsy_seen(m) & !sel_seen(m) & !rst_seen(m) & !is_arbitrating(phase(m))
}

// "Matched: connected and CD, IO, MSG equal 343h bits 7-5."
pub fn matched(m: &Image) -> bool
    ensures { result ≡ matched (state_at m.now) }
{
    (m[LINES_CONTROL] >> 5) % 8 == (m[SCSISIG] >> 5) % 8 && connected(m)
}

// Connected and not matched.
pub fn mismatched(m: &Image) -> bool
    ensures { result ≡ mismatched (state_at m.now) }
{
    (m[LINES_CONTROL] >> 5) % 8 != (m[SCSISIG] >> 5) % 8 && connected(m)
}

// "Path: Normal, and WRITE differs from IOEXP (343h bit 6)."
pub fn path(m: &Image) -> bool
    ensures { result ≡ path (registers_at m.now) }
{
    normal(m) && write(m) != ((m[SCSISIG] >> 6) % 2 == 1)
}

// "Synchronous: SOFS not 0, CD and MSG not seen"
pub fn synchronous(m: &Image) -> bool
    ensures { result ≡ synchronous (state_at m.now) }
{
    ((m[SCSIRATE] >> 0) % 16 != 0) & !cd_seen(m) & !msg_seen(m)
}

// "limit = smaller of SOFS and 8"
pub fn limit(m: &Image) -> u8
    ensures { result ≡ limit (registers_at m.now) }
{
    ((m[SCSIRATE] >> 0) % 16).min(8)
}

// "ACKO drives ACK in Manual mode only, uncounted."
pub fn ack_driven(m: &Image) -> bool
    ensures { result ≡ ack_driven (state_at m.now) }
{
    automatic_ack(m) | (manual(m) & ((m[SCSISIG] >> 0) % 2 == 1))
}

pub fn ack_seen(m: &Image) -> bool
    ensures { result ≡ ack_seen (state_at m.now) }
{
    ((m[LINES_CONTROL] >> 0) % 2 == 1) | ack_driven(m)
}

// "Data is driven when connected and IO not seen: the latch in Manual and Automatic, the byte last sent in Normal while
// automatic ACK is on."
fn byte_driving(m: &Image) -> bool
    ensures { result ≡ byte_driving (state_at m.now) }
{
    (manual(m) | automatic(m) | (normal(m) & automatic_ack(m))) && !io_seen(m) && connected(m)
}

// "Undriven data and parity are 0."
fn byte_driven(m: &Image) -> u8
    ensures { result ≡ byte_driven (state_at m.now) }
{
    if byte_driving(m) {
        if normal(m) { m[LAST] } else { m[SCSIDAT] }
    } else {
        0
    }
}

// "Where the sequencer gives data, that is what is driven, whatever the mode"
pub fn driving(m: &Image) -> bool
    ensures { result ≡ driving (state_at m.now) }
{
    drives_data(phase(m)) || byte_driving(m)
}

pub fn data_driven(m: &Image) -> u8
    ensures { result ≡ data_driven (state_at m.now) }
{
    let p = phase(m);
    if drives_data(p) {
        phase_data(p, m[SCSIID])
    } else {
        byte_driven(m)
    }
}

pub fn data_seen(m: &Image) -> u8
    ensures { result ≡ data_seen (state_at m.now) }
{
    m[LINES_DATA] | data_driven(m)
}

// "Quiet ticks: ... else ticks add, stopping at 8"; by `as`, since at most 8 is left
pub fn quiet_added(quiet: u8, ticks: u32) -> u8
    ensures { result ≡ min 8 (quiet + ticks) }
{
    (u64::from(quiet) + u64::from(ticks)).min(8) as u8
}
