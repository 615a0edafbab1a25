// A program: it reads an input, and writes the answer to it.
ghost use Rattle.std.specs.Prelude.{IfOk, IfSome};
ghost use Rattle.output.specs.Programs.{Responds};

use crate::answer::LONGEST;
use crate::answering::Answering;
use std::alloc::{AllocError, Global};
use std::io::{self, Read, Write};

// Reads at most one byte more than the longest input has, writes the answer and nothing else, and says whether it was a list. The error is any that want of
// memory and a broken input or output become: a program takes `anyhow::Error`, and so tells each in its own words.
pub fn respond_or<L: Answering, R: Read, W: Write, E: From<io::Error> + From<AllocError>>(
    heap: Global,
    input: &mut R,
    output: &mut W,
) -> Result<bool, E>
    ensures { IfOk result (λ listed. IfSome (R.remaining input.old) (λ bytes. Responds L.Answering.lists bytes (W.contents output.old) (W.contents output.new) listed)) }
{
    let mut bytes = Vec::new(heap);
    input.take(LONGEST as u64 + 1).read_to_end(&mut bytes)?;
    let answer = L::answer(heap, &bytes)?;
    output.write_all(answer.text())?;
    Ok(!answer.is_refused())
}

// The same with the errors of inputs and outputs, which want of memory becomes too.
pub fn respond<L: Answering, R: Read, W: Write>(
    heap: Global,
    input: &mut R,
    output: &mut W,
) -> io::Result<bool>
    ensures { IfOk result (λ listed. IfSome (R.remaining input.old) (λ bytes. Responds L.Answering.lists bytes (W.contents output.old) (W.contents output.new) listed)) }
{
    respond_or::<L, R, W, io::Error>(heap, input, output)
}
