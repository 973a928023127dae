// A of a record: what it is, its checks, and its own effect.
ghost use Rattle.std.specs.Prelude.{◌≡◌};
ghost use Rattle.rules.specs.Records.{decode};
ghost use Rattle.rules.specs.State.{power_reset};
ghost use Rattle.rules.specs.declared.codes.Code.TheVariants.{Done};
ghost use Rattle.image.specs.Image.{IsImage, state_at};
ghost use Rattle.event.specs.Opening.{Ends, OpensEvent, Opens};

use crate::reset::reset_in;
use effects::driving::{drive_in, ticked};
use effects::porting::{word_read, word_written};
use effects::reading::read_in;
use effects::writing::write_in;
use effects::{Acted, Ended};
use image::layout::Image;
use rules::codes::Code;
use rules::records::Event;

// Kind 0: "power reset"; its answer is ready.
fn power_reset_in(m: &mut Image) -> Acted
    ensures { Ends power_reset Done 0 m.new result }
{
    reset_in(m);
    Err(Ended {
        code: Code::Done,
        value: 0,
    })
}

// Each kind by itself; the bits of lines need not be taken apart, since they stand in the record as in the image.
fn opened_event(m: &mut Image, e: Event, bytes: &[u8]) -> Acted
    requires image { IsImage m.old }
    requires bytes_value { decode bytes.now ≡ Some e }
    ensures { OpensEvent (state_at m.old) e m.new result }
{
    match e {
        Event::PowerReset => power_reset_in(m),
        Event::Write { offset, value } => write_in(m, offset, value),
        Event::Read { offset } => read_in(m, offset),
        Event::WordWrite(word) => word_written(m, word),
        Event::WordRead => word_read(m),
        Event::Drive(_lines) => drive_in(m, bytes[1], bytes[2], bytes[3]),
        Event::Ticks(n) => ticked(m, n),
    }
}

// "record not 4 bytes or not well formed" is code 1.
pub fn opened(m: &mut Image, bytes: &[u8]) -> Acted
    requires { IsImage m.old }
    ensures { Opens (state_at m.old) (decode bytes.now) m.new result }
{
    let Some(e) = wire::decode(bytes) else {
        return Err(Ended {
            code: Code::Malformed,
            value: 0,
        });
    };
    opened_event(m, e, bytes)
}
