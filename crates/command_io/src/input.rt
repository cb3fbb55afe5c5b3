//! Standard input, as lines.
ghost use Rattle.std.specs.Prelude.{◌≡◌, ◌≤◌, ◌+◌, Bool, [], ◌∷◌, length, IfErr, IfOk, IfSome, IfNone};
ghost use Rattle.std.specs.Io.KnownBytes.{Consumes, IsAtEnd};
ghost use Rattle.command_io.specs.Input.{max_input_len, line_bytes, TakesLine, IsFirstLine, IsInputUnreadOrNoMemory};

use command_line::Fault;
use std::alloc::Global;
use std::io::{BufRead, ErrorKind, Read};

// The most bytes of its input that a command reads (16 MiB).
const MAX_INPUT_LEN: usize = 16_777_216;

/// The first line of `input` without its LF, or all of `input` if it has no LF. Takes nothing after the line from `input`. Faults:
/// CannotReadInput if a read fails or the line and its LF have more than 16777216 bytes, and NoMemory.
#[tactic(auto, using(crate::proofs::lemmas::InputLines::taken_line_is_first))]
pub fn first_line<I: BufRead>(alloc: Global, input: &mut I) -> Result<Vec<u8>, Fault>
    ensures first { IfOk result (λ line. IsFirstLine (I.remaining input.old) line.items) }
    ensures taken { IfOk result (λ line. (has_lf : Bool) × TakesLine (I.remaining input.old) line.items has_lf (I.remaining input.new)) }
    ensures most { IfOk result (λ line. length line.items ≤ max_input_len) }
    ensures err { IfErr result IsInputUnreadOrNoMemory }
{
    let (line, _) = read_line(alloc, input, MAX_INPUT_LEN)?;
    Ok(line)
}

/// The lines of an input, of at most 16777216 bytes in all. To find out that there are more, one more byte is read.
#[derive(Drop)]
pub struct Lines<'a, I> {
    input: &'a mut I,

    // How many more bytes may be read.
    left: usize,

    ghost most: { left ≤ max_input_len },
}

impl<'a, I: BufRead> Lines<'a, I> {
    /// The lines of `input` from its current position.
    pub fn new(input: &'a mut I) -> Lines<'a, I>
        ensures input { result.input ≡ input.entry }
        ensures left { result.left ≡ max_input_len }
    {
        Lines {
            input,
            left: MAX_INPUT_LEN,
        }
    }

    /// The next line without its LF, or None at the end of the input. A last line without an LF counts if it has at least one byte.
    /// Faults: CannotReadInput if a read fails or the lines so far have more than 16777216 bytes with their LFs, and NoMemory.
    pub fn next(&mut self, alloc: Global) -> Result<Option<Vec<u8>>, Fault>
        // A line has at least one byte, so each call that returns one leaves fewer bytes to read.
        ensures line { IfOk result (λ found. IfSome found (λ line. (has_lf : Bool)
            × TakesLine (I.remaining self.old.input.now) line.items has_lf (I.remaining self.new.input.now)
            × (1 ≤ length (line_bytes line.items has_lf))
            × (self.new.left + length (line_bytes line.items has_lf) ≡ self.old.left))) }
        ensures end { IfOk result (λ found. IfNone found (IsAtEnd (I.remaining self.old.input.now))) }
        ensures ended { IfOk result (λ found. IfNone found (IsAtEnd (I.remaining self.new.input.now))) }
        ensures err { IfErr result IsInputUnreadOrNoMemory }
    {
        let (line, has_lf) = read_line(alloc, self.input, self.left)?;
        let taken = if has_lf { line.len() + 1 } else { line.len() };
        if taken == 0 {
            return Ok(None);
        }
        self.left -= taken;
        Ok(Some(line))
    }
}

// The next line of `input` without its LF, and whether it had one; at the end of the input, an empty line that had none. Faults:
// CannotReadInput if a read fails or the line and its LF have more than `most` bytes, and NoMemory.
fn read_line<I: Read>(alloc: Global, input: &mut I, most: usize) -> Result<(Vec<u8>, bool), Fault>
    ensures line { IfOk result (λ line. TakesLine (I.remaining input.old) line.0.items line.1 (I.remaining input.new)) }
    ensures most { IfOk result (λ line. length (line_bytes line.0.items line.1) ≤ most) }
    ensures err { IfErr result IsInputUnreadOrNoMemory }
{
    let mut line = Vec::new(alloc);
    while let Some(byte) = next_byte(input)? {
        if line.len() == most {
            return Err(Fault::CannotReadInput);
        }
        if byte == b'\n' {
            return Ok((line, true));
        }
        line.extend_from_slice(&[byte])?;
    }
    Ok((line, false))
}

// The next byte of `input`, or None at its end. A read that a signal interrupts is tried again. Faults: CannotReadInput if a read
// fails, and NoMemory if it fails because memory ran out.
fn next_byte<I: Read>(input: &mut I) -> Result<Option<u8>, Fault>
    ensures some { IfOk result (λ found. IfSome found (λ byte. Consumes (I.remaining input.old) (I.remaining input.new) (byte ∷ []))) }
    ensures none { IfOk result (λ found. IfNone found (Consumes (I.remaining input.old) (I.remaining input.new) []
        × IsAtEnd (I.remaining input.new))) }
    ensures err { IfErr result IsInputUnreadOrNoMemory }
{
    let mut byte = [0];
    // The bound is there only because every function has to return; in practice the body ends the loop.
    for _ in 0..u64::MAX {
        match input.read(&mut byte) {
            Ok(0) => return Ok(None),
            Ok(_) => return Ok(Some(byte[0])),
            Err(error) if error.kind() == ErrorKind::Interrupted => {}
            Err(error) if error.kind() == ErrorKind::OutOfMemory => return Err(Fault::NoMemory),
            Err(_) => break,
        }
    }
    Err(Fault::CannotReadInput)
}
