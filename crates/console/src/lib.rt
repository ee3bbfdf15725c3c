// What the programs share: standard input read whole, a line written to standard output, and the
// line of a refusal.
//
// `receive` takes any reader and `print` any writer, so that their contracts can name the bytes that
// are moved; of those of the system's streams nothing is known. A call that a signal interrupts
// before it moves a byte counts as one that failed.
#![tactic(auto)]

ghost use Rattle.std.specs.Prelude.{◌≡◌, ◌<◌, IfOk, OnErr, OnOk, length, take};
ghost use Rattle.std.specs.Io.KnownBytes.{Appends, Consumes, IsAtEnd};
ghost use Rattle.io.specs.Counts.{IsPrefixLen};
ghost use Rattle.records.specs.Answers.{number_of};
ghost use Rattle.text.specs.Text.{written};
ghost use Rattle.console.specs.Refusal.{refusal_line};
ghost use Rattle.console.specs.Streams.{AppendsPart, ConsumesPart};

use records::{Numbered, Refusal};
use std::io;
use std::io::{ErrorKind, Read, Write};
use text::Line;

// Reads the input to its end or until the buffer is full, and answers how many bytes came, at the start of the buffer.
// A read that fails ends it with its error and no count, however many bytes came before it, so that what came is never
// taken for the whole input. A loop: `read_exact` fails at an input that is shorter, and `read_to_end` takes memory.
pub fn receive<R: Read>(input: &mut R, buffer: &mut [u8]) -> io::Result<usize>
    ensures within { IfOk result (λ n. IsPrefixLen n buffer.new) }
    ensures bytes { IfOk result (λ n. Consumes (R.remaining input.old) (R.remaining input.new) (take n buffer.new)) }
    ensures end { IfOk result (λ n. n < length buffer.new → IsAtEnd (R.remaining input.new)) }
    ensures part { OnErr result (ConsumesPart (R.remaining input.old) (R.remaining input.new) buffer.new) }
{
    let mut done = 0;
    while done < buffer.len() {
        let more = input.read(&mut buffer[done..])?;
        if more == 0 {
            break;
        }
        done += more;
    }
    Ok(done)
}

// Writes a line, and answers how many bytes stand in it. Where a write fails, or takes no byte, a part
// of the line may have been written. A loop, and no `write_all`: of a write that fails that promises nothing.
pub fn print<W: Write>(output: &mut W, line: Line) -> io::Result<usize>
    ensures count { IfOk result (λ n. n ≡ length (written line)) }
    ensures whole { OnOk result (Appends (W.contents output.old) (W.contents output.new) (written line)) }
    ensures part { OnErr result (AppendsPart (W.contents output.old) (W.contents output.new) (written line)) }
{
    let bytes = line.bytes;
    let count = line.count();
    let mut sent = 0;
    while sent < count {
        let more = output.write(&bytes[sent..count])?;
        if more == 0 {
            return Err(io::Error::from(ErrorKind::WriteZero));
        }
        sent += more;
    }
    Ok(count)
}

// "refused NUMBER PLACE"; where the input has several parts, `part` is a space and the name of one, and
// stands after the word. Number and place apart: a `Refusal` has no number but those of the list.
#[tactic(auto, unfolding(crate::specs::Refusal::refusal_line))]
pub fn refusal(part: &[u8], number: u8, place: usize) -> Line
    ensures { result ≡ refusal_line part.now number place }
{
    let line = text::empty().word(b"refused").word(part);
    line.item(number as u64).item(place as u64).word(b"\n")
}

// Writes the line of a refusal.
pub fn print_refusal<W: Write>(output: &mut W, part: &[u8], why: Refusal) -> io::Result<()>
    ensures whole { OnOk result (Appends (W.contents output.old) (W.contents output.new) (written (refusal_line part.now (number_of why.kind) why.place))) }
    ensures part { OnErr result (AppendsPart (W.contents output.old) (W.contents output.new) (written (refusal_line part.now (number_of why.kind) why.place))) }
{
    print(output, refusal(part, why.kind.number(), why.place))?;
    Ok(())
}
