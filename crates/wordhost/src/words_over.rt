// R-3: the string calls on the image in a slice.
ghost use Rattle.std.specs.Prelude.{◌≡◌};
ghost use Rattle.image.specs.Image.{IsImage, state_at};
ghost use Rattle.rules.specs.Codes.{number_of};
ghost use Rattle.rules.specs.declared.codes.Code.TheVariants.{Malformed};
ghost use Rattle.words.specs.Calls.{written_words, fetched_words};
ghost use Rattle.wordhost.specs.WordCalls.{image_written, image_fetched, LeftWrite, LeftFetch, IsWordsWritten, IsWordsRead};

use image::layout::{Image, SIZE};
use rules::codes::Code;
use saved::slices::taken;
use strings::Passed;
use strings::reading::fetched_over;
use strings::writing::written_over;
use words::{is_readable, is_writable};

// "Code 1 before any word"
fn not_done() -> Passed
    ensures { result ≡ record { done = 0; count = 0; code = Malformed } }
{
    Passed {
        done: 0,
        count: 0,
        code: Code::Malformed,
    }
}

// The calls on an image that is accepted, with any buffers.
fn words_written(m: &mut Image, bytes: &[u8], words: usize, out: &mut [u8]) -> Passed
    requires { IsImage m.old }
    ensures { IsWordsWritten (written_words (state_at m.old) bytes.now words out.old) m.new out.new result }
{
    if !is_writable(bytes.len(), words, out.len()) {
        return not_done();
    }
    written_over(m, bytes, words, out)
}

fn words_read(m: &mut Image, words: usize, out: &mut [u8]) -> Passed
    requires { IsImage m.old }
    ensures { IsWordsRead (fetched_words (state_at m.old) words out.old) m.new out.new result }
{
    if !is_readable(out.len(), words) {
        return not_done();
    }
    fetched_over(m, words, out)
}

// The calls on any slice; where it is no image that is accepted, no word is done. The frame of a call stands in each, as in `host`.
pub fn image_written(image: &mut [u8], bytes: &[u8], words: usize, out: &mut [u8]) -> Passed
    ensures { LeftWrite (image_written image.old bytes.now words out.old) image.new result.done result.count out.new (number_of result.code) }
{
    let mut m = [0u8; SIZE];
    let Ok(()) = taken(image, &mut m) else {
        return not_done();
    };
    let r = words_written(&mut m, bytes, words, out);
    image.copy_from_slice(&m);
    r
}

pub fn image_read(image: &mut [u8], words: usize, out: &mut [u8]) -> Passed
    ensures { LeftFetch (image_fetched image.old words out.old) image.new result.done out.new (number_of result.code) }
{
    let mut m = [0u8; SIZE];
    let Ok(()) = taken(image, &mut m) else {
        return not_done();
    };
    let r = words_read(&mut m, words, out);
    image.copy_from_slice(&m);
    r
}
