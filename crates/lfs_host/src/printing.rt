//! What a command says on standard output.
ghost use Rattle.std.specs.Prelude.{◌≡◌, ◌⊎◌, Err, Ok};
ghost use Rattle.std.specs.Io.KnownBytes.{Keeps};

use crate::fault::{Ending, Fault, Refusal};
use lfs_streams::WriteCount;
use lfs_words::{put_escaped, put_number};
use std::io::Write;

pub fn flush<W: Write>(output: &mut W) -> Result<(), Fault>
    ensures { Keeps (W.contents output.old) (W.contents output.new) }
{
    let Ok(()) = output.flush() else {
        return Err(Fault::Output);
    };
    Ok(())
}

pub fn put<W: Write>(output: &mut W, bytes: &[u8]) -> Result<(), Fault> {
    let Ok(()) = output.write_all(bytes) else {
        return Err(Fault::Output);
    };
    Ok(())
}

/// Writes a number behind a text, in decimal digits.
pub fn put_count<W: Write>(output: &mut W, text: &[u8], number: u64) -> Result<(), Fault> {
    put(output, text)?;
    let Ok(()) = put_number(output, &mut WriteCount::new(), number) else {
        return Err(Fault::Output);
    };
    Ok(())
}

/// Writes numbers, each behind its text.
pub fn put_counts<W: Write>(output: &mut W, counts: &[(&[u8], u64)]) -> Result<(), Fault> {
    for (text, number) in counts {
        put_count(output, text, *number)?;
    }
    Ok(())
}

/// Prints that so many bytes were copied.
pub fn print_copied<W: Write>(output: &mut W, bytes: u64) -> Result<(), Fault> {
    put_count(output, b"ok ", bytes)?;
    print(output, "\n")
}

/// Writes bytes as a word of scripts.
pub fn put_word<W: Write>(output: &mut W, bytes: &[u8]) -> Result<(), Fault> {
    let Ok(()) = put_escaped(output, &mut WriteCount::new(), bytes) else {
        return Err(Fault::Output);
    };
    Ok(())
}

pub fn print<W: Write>(output: &mut W, text: &str) -> Result<(), Fault> {
    put(output, text.as_bytes())?;
    flush(output)
}

/// Prints the line of a refused command.
pub fn refuse<W: Write>(output: &mut W, refusal: Refusal) -> Result<Ending, Fault>
    ensures { (result ≡ Ok (Ending.Refused refusal)) ⊎ (result ≡ Err Fault.Output) }
{
    let Ok(()) = output.writeln(refusal) else {
        return Err(Fault::Output);
    };
    match flush(output) {
        Ok(()) => Ok(Ending::Refused(refusal)),
        Err(_) => Err(Fault::Output),
    }
}

/// Prints the line of a command that is refused for the word at this place.
pub fn refuse_at<W: Write>(output: &mut W, refusal: Refusal, at: usize) -> Result<Ending, Fault> {
    refuse(output, refusal)?;
    Ok(Ending::RefusedAt(refusal, at))
}
