// Moves between the FIFOs: a run of moves is one block.
#![tactic(auto, using(crate::proofs::Carries::scsi_held, crate::proofs::Carries::host_held), unfolding(crate::specs::Blocks::movable))]

ghost use Rattle.std.specs.Prelude.{◌≡◌, true, false, ◌+◌, ◌≤◌, min, length};
ghost use Rattle.rules.specs.Changed.{with_transfer};
ghost use Rattle.image.specs.Image.{IsImage, image_of, state_at};
ghost use Rattle.settling.specs.Blocks.{movable, carried};
ghost use Rattle.settling.specs.Steps.{Moves};

use datapath::host::host_popped;
use datapath::scsi::scsi_popped;
use image::copies::copied;
use image::layout::{HOST_BYTES, HOST_COUNT, Image, SCSI_BYTES, SCSI_COUNT};
use rules::chip::Conditions;

// k bytes from the host FIFO behind those of the SCSI FIFO.
fn carried_out(m: &mut Image, k: usize)
    requires image { IsImage m.old }
    requires k_in_bounds { k ≤ length (state_at m.old).transfer.host }
    requires k_len_bound { length (state_at m.old).transfer.scsi + k ≤ 8 }
    ensures { m.new ≡ image_of (with_transfer (carried true k (state_at m.old).transfer) (state_at m.old)) }
{
    let held = usize::from(m[SCSI_COUNT]);
    copied(m, HOST_BYTES, SCSI_BYTES + held, k);
    m[SCSI_COUNT] = (held + k) as u8;
    host_popped(m, k);
}

// k bytes from the SCSI FIFO behind those of the host FIFO. A function over the places of both would be these three lines under six
// clauses more.
fn carried_in(m: &mut Image, k: usize)
    requires image { IsImage m.old }
    requires k_in_bounds { k ≤ length (state_at m.old).transfer.scsi }
    requires k_len_bound { length (state_at m.old).transfer.host + k ≤ 128 }
    ensures { m.new ≡ image_of (with_transfer (carried false k (state_at m.old).transfer) (state_at m.old)) }
{
    let held = usize::from(m[HOST_COUNT]);
    copied(m, SCSI_BYTES, HOST_BYTES + held, k);
    m[HOST_COUNT] = (held + k) as u8;
    scsi_popped(m, k);
}

// The moves that are possible one after the other.
pub fn run_length(m: &Image, c: Conditions) -> usize
    requires { IsImage m.now }
    ensures { result ≡ movable c (state_at m.now).transfer }
{
    let scsi = usize::from(m[SCSI_COUNT]);
    let host = usize::from(m[HOST_COUNT]);
    if !c.path {
        0
    } else if c.outbound {
        if host == 0 { 0 } else { host.min(8 - scsi) }
    } else if scsi == 0 {
        0
    } else {
        scsi.min(128 - host)
    }
}

// A run of k moves.
fn carried_run(m: &mut Image, c: Conditions, k: usize)
    requires image { IsImage m.old }
    requires k_bound { k ≤ movable c (state_at m.old).transfer }
    ensures { m.new ≡ image_of (with_transfer (carried c.outbound k (state_at m.old).transfer) (state_at m.old)) }
{
    if c.outbound {
        carried_out(m, k);
    } else {
        carried_in(m, k);
    }
}

// The longest run of moves, and how many they are.
// Inlined: a call for each event took a tenth of its time.
#[inline(always)]
pub fn moved(m: &mut Image, c: Conditions) -> u8
    requires { IsImage m.old }
    ensures { Moves m.old c m.new result }
{
    let k = run_length(m, c);
    if k == 0 {
        return 0;
    }
    carried_run(m, c, k);
    k as u8
}
