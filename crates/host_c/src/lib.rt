// The exports of `host` for a program in C: each calls its function there, by the same contract.
#![tactic(auto)]

ghost use Rattle.host.specs.ImageCalls.{IsImageCall, IsImageRun};

// One record: its code; the new image in place of the old.
#[unsafe(no_mangle)]
pub extern "C" fn rabenteig_step(image: &mut [u8], bytes: &[u8], answer: &mut [u8]) -> u8
    ensures { IsImageCall image.old bytes.now answer.old image.new answer.new result }
{
    host::rabenteig_step(image, bytes, answer)
}

// The records one after another, the image tested once; their number.
#[unsafe(no_mangle)]
pub extern "C" fn rabenteig_run(image: &mut [u8], records: &[u8], answers: &mut [u8]) -> usize
    ensures { IsImageRun image.old records.now answers.old image.new answers.new result }
{
    host::rabenteig_run(image, records, answers)
}
