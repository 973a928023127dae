// R-3: the string calls, exported by `wordhost_c` in an archive of their own: the run of records of `host` is compiled apart from them.
#![tactic(auto)]

ghost use Rattle.std.specs.Prelude.{◌≡◌};
ghost use Rattle.wordhost.specs.WordCalls.{image_written, image_fetched, LeftWrite, LeftFetch};

use crate::words_over::{image_read, image_written};

mod words_over;

// R-3: words written as one call; its code. The sent bytes go to out; done is the number of words done, count that of bytes sent.
pub fn rabenteig_write_words(
    image: &mut [u8],
    bytes: &[u8],
    words: usize,
    out: &mut [u8],
    done: &mut usize,
    count: &mut usize,
) -> u8
    ensures { LeftWrite (image_written image.old bytes.now words out.old) image.new done.new count.new out.new result }
{
    let r = image_written(image, bytes, words, out);
    *done = r.done;
    *count = r.count;
    u8::from(r.code)
}

// R-3: words read as one call to out; its code. done is the number of words done.
pub fn rabenteig_read_words(image: &mut [u8], out: &mut [u8], words: usize, done: &mut usize) -> u8
    ensures { LeftFetch (image_fetched image.old words out.old) image.new done.new out.new result }
{
    let r = image_read(image, words, out);
    *done = r.done;
    u8::from(r.code)
}
