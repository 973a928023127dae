// One handshake: its byte, and its ACK.
#![tactic(auto, using(crate::proofs::Carries::scsi_held, crate::proofs::ReadBackOfTransfer::offset_held), unfolding(rules::specs::StepC::can_synchronous, rules::specs::StepC::can_asynchronous, rules::specs::StepC::can_handshake))]

ghost use Rattle.std.specs.Prelude.{◌≡◌, true, [], ◌<◌, length, get_or};
ghost use Rattle.rules.specs.StepC.{can_synchronous, can_asynchronous, can_handshake};
ghost use Rattle.fifos.specs.Fifos.{SentTidy};
ghost use Rattle.rules.specs.Changed.{with_transfer};
ghost use Rattle.image.specs.Image.{IsImage, image_of, state_at};
ghost use Rattle.settling.specs.Blocks.{passed, acknowledged};
ghost use Rattle.settling.specs.Steps.{sent_with, byte_passed, shaken_of};

use datapath::counts::{acknowledged, counter_stepped};
use datapath::scsi::scsi_pushed;
use fifos::Sent;
use image::bits::automatic_ack;
use image::layout::{Image, LAST, OFFSET, SCSI_BYTES, SCSI_COUNT};
use rules::chip::Conditions;
use rules::counts::Direction;

// Synchronous and asynchronous handshakes ask of other things, and so each has its test.
fn can_synchronous(m: &Image, c: Conditions) -> bool
    requires { IsImage m.now }
    ensures { result ≡ can_synchronous c (state_at m.now).transfer }
{
    let held = m[SCSI_COUNT];
    let open = m[OFFSET];
    if c.outbound {
        (0 < open) & (0 < held)
    } else {
        (0 < open) & (held < open)
    }
}

fn can_asynchronous(m: &Image, c: Conditions) -> bool
    requires { IsImage m.now }
    ensures { result ≡ can_asynchronous c (state_at m.now).transfer }
{
    let held = m[SCSI_COUNT];
    if c.outbound {
        c.req & !automatic_ack(m) & (0 < held)
    } else {
        c.req & !automatic_ack(m) & (held < 8)
    }
}

pub fn can_handshake(m: &Image, c: Conditions) -> bool
    requires { IsImage m.now }
    ensures { result ≡ can_handshake c (state_at m.now).transfer }
{
    if c.synchronous {
        c.enabled & can_synchronous(m, c)
    } else {
        c.enabled & can_asynchronous(m, c)
    }
}

// The oldest byte of the SCSI FIFO goes to the bus; the places past the count hold 0 and move with the others. One by one:
// `copy_within` of the seven bytes is compiled to a loop that takes over four times as long.
fn byte_sent(m: &mut Image) -> u8
    requires image { IsImage m.old }
    requires scsi_nonzero { 0 < length (state_at m.old).transfer.scsi }
    ensures { (result ≡ get_or (state_at m.old).transfer.scsi 0 0) × (m.new ≡ image_of (with_transfer (passed true [] (state_at m.old).transfer) (state_at m.old))) }
{
    let n = m[SCSI_COUNT];
    let b = m[SCSI_BYTES];
    m[SCSI_BYTES] = m[SCSI_BYTES + 1];
    m[SCSI_BYTES + 1] = m[SCSI_BYTES + 2];
    m[SCSI_BYTES + 2] = m[SCSI_BYTES + 3];
    m[SCSI_BYTES + 3] = m[SCSI_BYTES + 4];
    m[SCSI_BYTES + 4] = m[SCSI_BYTES + 5];
    m[SCSI_BYTES + 5] = m[SCSI_BYTES + 6];
    m[SCSI_BYTES + 6] = m[SCSI_BYTES + 7];
    m[SCSI_BYTES + 7] = 0;
    m[LAST] = b;
    m[SCSI_COUNT] = n - 1;
    b
}

// The byte of a handshake; a synchronous inbound one is stored already.
fn byte_passed(m: &mut Image, c: Conditions, sent: Sent) -> Sent
    requires image { IsImage m.old }
    requires m_value { can_handshake c (state_at m.old).transfer ≡ true }
    requires sent_tidy { SentTidy sent }
    requires count_bound { sent.count < 8 }
    ensures { (result ≡ sent_with c (state_at m.old).transfer sent) × (m.new ≡ image_of (with_transfer (byte_passed c (state_at m.old).transfer) (state_at m.old))) }
{
    if c.outbound {
        return fifos::one_more(sent, byte_sent(m));
    }
    if c.synchronous {
        return sent;
    }
    scsi_pushed(m, c.byte);
    sent
}

// The ACK of a handshake: a pulse that lowers the offset, or on.
fn ack_given(m: &mut Image, synchronous: bool)
    requires { IsImage m.old }
    ensures { m.new ≡ image_of (with_transfer (acknowledged synchronous (state_at m.old).transfer) (state_at m.old)) }
{
    if synchronous {
        let _passed = counter_stepped(m, Direction::Up);
        m[OFFSET] = m[OFFSET].saturating_sub(1);
    } else {
        acknowledged(m);
    }
}

// A handshake, with the bytes sent so far.
pub fn shaken(m: &mut Image, c: Conditions, sent: Sent) -> Sent
    requires image { IsImage m.old }
    requires m_value { can_handshake c (state_at m.old).transfer ≡ true }
    requires sent_tidy { SentTidy sent }
    requires count_bound { sent.count < 8 }
    ensures { (result ≡ sent_with c (state_at m.old).transfer sent) × (m.new ≡ image_of (with_transfer (shaken_of c (state_at m.old).transfer) (state_at m.old))) }
{
    let more = byte_passed(m, c, sent);
    ack_given(m, c.synchronous);
    more
}
