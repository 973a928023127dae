// The data port: a byte at 356h, or a word; each refusal in the order of the checks.
ghost use Rattle.std.specs.Prelude.{◌≡◌};
ghost use Rattle.rules.specs.Map.{offset_of};
ghost use Rattle.rules.specs.declared.map.Register.TheVariants.{DMADATA};
ghost use Rattle.rules.specs.declared.records.Event.TheVariants.{Write, Read, WordWrite, WordRead};
ghost use Rattle.image.specs.Image.{IsImage, state_at};
ghost use Rattle.effects.specs.Acting.{Acts};
ghost use Rattle.effects.specs.CodeBy.{shut_to};

use crate::{Acted, check, done};
use datapath::host::{host_popped, host_pushed, word_pushed};
use image::layout::{DMACNTRL0, HOST_BYTES, HOST_COUNT, Image};
use reads::values::oldest_word;
use rules::codes::Code;
use rules::records::Event;

// "data port shut: ENDMA 0, DMA/PIO 1, width or direction wrong"
pub fn shut_to(m: &Image, wide: bool, read: bool) -> bool
    ensures { result ≡ shut_to (state_at m.now).registers.dmacntrl0 wide read }
{
    let d = m[DMACNTRL0];
    !((d >> 7) % 2 == 1)
        | ((d >> 5) % 2 == 1)
        | (((d >> 6) % 2 == 1) == wide)
        | (((d >> 3) % 2 == 1) == read)
}

// A byte goes behind.
pub fn byte_written(m: &mut Image, value: u8) -> Acted
    requires { IsImage m.old }
    ensures { Acts (state_at m.old) (Write (offset_of DMADATA) value) m.new result }
{
    let e = Event::Write {
        offset: 0x16,
        value,
    };
    check(shut_to(m, false, false), Code::Shut, e)?;
    check(m[HOST_COUNT] >= 128, Code::NoRoom, e)?;
    host_pushed(m, value);
    done(m, 0)
}

// The oldest byte is given and taken off.
pub fn byte_read(m: &mut Image) -> Acted
    requires { IsImage m.old }
    ensures { Acts (state_at m.old) (Read 0x16) m.new result }
{
    let e = Event::Read { offset: 0x16 };
    check(shut_to(m, false, true), Code::Shut, e)?;
    check(m[HOST_COUNT] < 1, Code::NoBytes, e)?;
    let value = m[HOST_BYTES];
    host_popped(m, 1);
    done(m, u16::from(value))
}

// "A word's low byte comes first."
pub fn word_written(m: &mut Image, word: u16) -> Acted
    requires { IsImage m.old }
    ensures { Acts (state_at m.old) (WordWrite word) m.new result }
{
    let e = Event::WordWrite(word);
    check(shut_to(m, true, false), Code::Shut, e)?;
    check(m[HOST_COUNT] >= 127, Code::NoRoom, e)?;
    word_pushed(m, word);
    done(m, 0)
}

// The two oldest bytes are given and taken off.
pub fn word_read(m: &mut Image) -> Acted
    requires { IsImage m.old }
    ensures { Acts (state_at m.old) WordRead m.new result }
{
    check(shut_to(m, true, true), Code::Shut, Event::WordRead)?;
    check(m[HOST_COUNT] < 2, Code::NoBytes, Event::WordRead)?;
    let value = oldest_word(m);
    host_popped(m, 2);
    done(m, value)
}
