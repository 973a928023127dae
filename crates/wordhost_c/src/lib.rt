// The exports of `wordhost` for a program in C: each calls its function there, by the same contract.
#![tactic(auto)]

ghost use Rattle.wordhost.specs.WordCalls.{image_written, image_fetched, LeftWrite, LeftFetch};

// Words written as one call; its code. The sent bytes go to out; done is the number of words done, count that of bytes sent.
#[unsafe(no_mangle)]
pub extern "C" fn rabenteig_write_words(
    image: &mut [u8],
    bytes: &[u8],
    words: usize,
    out: &mut [u8],
    done: &mut usize,
    count: &mut usize,
) -> u8
    ensures { LeftWrite (image_written image.old bytes.now words out.old) image.new done.new count.new out.new result }
{
    wordhost::rabenteig_write_words(image, bytes, words, out, done, count)
}

// Words read as one call to out; its code. done is the number of words done.
#[unsafe(no_mangle)]
pub extern "C" fn rabenteig_read_words(
    image: &mut [u8],
    out: &mut [u8],
    words: usize,
    done: &mut usize,
) -> u8
    ensures { LeftFetch (image_fetched image.old words out.old) image.new done.new out.new result }
{
    wordhost::rabenteig_read_words(image, out, words, done)
}
