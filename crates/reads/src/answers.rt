// The answer, read off an image.
ghost use Rattle.std.specs.Prelude.{◌≡◌, ◌&&◌, ◌||◌, cond, false};
ghost use Rattle.rules.specs.Numbers.{ones, even, byte_of};
ghost use Rattle.rules.specs.Seen.{ack_driven, driving};
ghost use Rattle.rules.specs.Answers.{answer_bytes, control_driven};
ghost use Rattle.image.specs.Image.{IsImage, state_at};
ghost use Rattle.reads.specs.Answering.{byte_given, answer_with};

use crate::interrupts::irq;
use image::bits::{atno, bsyo, scsirsto, selo};
use image::bus::{ack_driven, driving, io_seen, normal};
use image::layout::{HOST_COUNT, Image, LAST, OFFSET, SCSI_COUNT, SCSIDAT, SCSIID, SEQUENCER};
use image::sequencer::{drives_bsy, drives_data, drives_sel, phase, phase_data};
use laws::byte_of;
use parity::parity_for;
use rules::codes::Code;
use rules::records::Answer;
use wire::answer_bytes;

// "Where the sequencer gives data, that is what is driven, whatever the mode"
#[tactic(auto, unfolding(crate::specs::Answering::byte_given, image::specs::Image::state_at))]
fn byte_given(m: &Image) -> u8
    ensures { result ≡ byte_given (state_at m.now) }
{
    let p = phase(m);
    if drives_data(p) {
        phase_data(p, m[SCSIID])
    } else if normal(m) {
        m[LAST]
    } else {
        m[SCSIDAT]
    }
}

// Whether data is driven: with IO seen only the sequencer drives any, and the mode need not be asked.
fn is_driving(m: &Image) -> bool
    ensures { result ≡ driving (state_at m.now) }
{
    if io_seen(m) & !drives_data(phase(m)) {
        false
    } else {
        driving(m)
    }
}

// "Undriven data and parity are 0.": whether data is driven is judged once, by the caller; image::bus::data_driven would judge it again.
fn byte_driven(m: &Image, driving: bool) -> u8
    ensures { result ≡ cond driving (byte_given (state_at m.now)) 0 }
{
    if driving { byte_given(m) } else { 0 }
}

// "Parity driven makes the ones odd.": they are counted only where data is driven.
fn parity_of(driving: bool, driven: u8) -> bool
    ensures { result ≡ driving && even (ones driven) }
{
    driving && parity_for(driven)
}

// The control lines driven, in the order of 343h, with the SEL and BSY that are given: CD, IO, MSG and REQ never are.
// The bits are named first, so that the byte stands on one line.
fn control_with(m: &Image, select: bool, busy: bool) -> u8
    ensures { result ≡ byte_of false false false (state_at m.now).registers.scsisig.atno ((state_at m.now).registers.scsisig.selo || select) ((state_at m.now).registers.scsisig.bsyo || busy) false (ack_driven (state_at m.now)) }
{
    let acked = ack_driven(m);
    let atn = atno(m);
    let sel = selo(m) | select;
    let bsy = bsyo(m) | busy;
    byte_of(false, false, false, atn, sel, bsy, false, acked)
}

// The sequencer is idle most of the time, and then its phase is not taken apart.
fn control_driven(m: &Image) -> u8
    ensures { result ≡ control_driven (state_at m.now) }
{
    if m[SEQUENCER] % 8 == 0 {
        control_with(m, false, false)
    } else {
        let p = phase(m);
        control_with(m, drives_sel(p), drives_bsy(p))
    }
}

// The sixteen bytes of the answer after an event, with what settling reports and the bytes sent, one by one: the struct that holds
// them, event::stepping::Outcome, stands above this crate.
pub fn answer_of(m: &Image, code: Code, value: u16, moves: u8, acks: u8, sent: [u8; 8]) -> [u8; 16]
    requires { IsImage m.now }
    ensures { result ≡ answer_bytes (answer_with (state_at m.now) code value moves acks sent) }
{
    let driving = is_driving(m);
    let driven = byte_driven(m, driving);
    answer_bytes(Answer {
        code,
        irq: irq(m),
        acks,
        moves,
        driving,
        rst: scsirsto(m),
        parity: parity_of(driving, driven),
        value,
        control: control_driven(m),
        driven,
        offset: m[OFFSET],
        scsi: m[SCSI_COUNT],
        host: m[HOST_COUNT],
        sent,
    })
}
