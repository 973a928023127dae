// A, "The event's own effect", in place: the checks of an access, and what it does.
#![tactic(auto)]

ghost use Rattle.std.specs.Prelude.{◌≡◌, cond};
ghost use Rattle.rules.specs.Codes.{refused_value, mapped_code, mapped_value};
ghost use Rattle.image.specs.Image.{IsImage, image_of, state_at};
ghost use Rattle.effects.specs.Acting.{ended_with, checked_as, done_with};
ghost use Rattle.effects.specs.Writes.{kept};

use image::layout::Image;
use interrupts::status::status_kept_in;
use rules::codes::Code;
use rules::records::Event;
use wire::refused_value;

mod clearing;
pub mod driving;
pub mod porting;
pub mod reading;
mod scsidat;
pub mod writing;

// An event that goes on to B: the value that it reads, of sixteen bits, and its ticks. Both fields are as wide, so that nothing is left
// out between them: a copy of the two was loaded across two stores.
#[derive(Clone, Copy)]
pub struct Effect {
    pub value: u32,
    pub ticks: u32,
}

// An answer that is ready: that of a refusal, or of a power reset.
#[derive(Clone, Copy)]
pub struct Ended {
    pub code: Code,
    pub value: u16,
}

// What A hands on.
pub type Acted = Result<Effect, Ended>;

// An access that is refused, with the value that document 01 gives the refusals of its kind.
fn refused(code: Code, e: Event) -> Ended
    ensures { result ≡ ended_with code (refused_value e) }
{
    let value = refused_value(e);
    Ended { code, value }
}

// An access that finds nothing at its offset: "register absent in that direction".
fn absent(e: Event) -> Ended
    ensures { result ≡ ended_with (mapped_code None) (mapped_value None e) }
{
    refused(Code::Absent, e)
}

// One of the checks: an access that it finds is refused with its code.
fn check(found: bool, code: Code, e: Event) -> Result<(), Ended>
    ensures { result ≡ checked_as found code e }
{
    if found { Err(refused(code, e)) } else { Ok(()) }
}

// An event of no ticks that goes on to B. "While ENSPCHK is 0, SCSIPERR is held at 0".
fn done(m: &mut Image, value: u16) -> Acted
    requires { IsImage m.old }
    ensures m_after { m.new ≡ image_of (kept (state_at m.old)) }
    ensures value { result ≡ done_with value 0 }
{
    status_kept_in(m, false, false);
    Ok(Effect {
        value: u32::from(value),
        ticks: 0,
    })
}
