//! What a command prints.
ghost use Rattle.std.specs.Prelude.{◌≡◌, ◌++◌, ◌∷◌, [], OnOk, IfErr};
ghost use Rattle.std.specs.Str.{byte};
ghost use Rattle.std.specs.Io.KnownBytes.{Appends};
ghost use Rattle.book_format.specs.Book.{BookFields};
ghost use Rattle.account_book.specs.SavedBooks.{HasStoredText};
ghost use Rattle.book_file.specs.Saved.{IsSavedText};

use command_line::Fault;
use std::fs::Files;
use std::io::Write;

/// Prints `text`. The only fault is CannotWriteOutput.
pub fn print<O: Write>(text: &[u8], output: &mut O) -> Result<(), Fault>
    ensures printed { OnOk result (Appends (O.contents output.old) (O.contents output.new) text.now) }
    ensures err { IfErr result (λ fault. fault ≡ Fault.CannotWriteOutput) }
{
    output.write_all(text).map_err(|_| Fault::CannotWriteOutput)
}

/// Prints `text` and flushes the output. The only fault is CannotWriteOutput.
pub fn print_and_flush<O: Write>(text: &[u8], output: &mut O) -> Result<(), Fault>
    ensures printed { OnOk result (Appends (O.contents output.old) (O.contents output.new) text.now) }
    ensures err { IfErr result (λ fault. fault ≡ Fault.CannotWriteOutput) }
{
    print(text, output)?;
    output.flush().map_err(|_| Fault::CannotWriteOutput)
}

/// Prints `line` and an LF. The only fault is CannotWriteOutput.
pub fn print_line<O: Write>(line: &str, output: &mut O) -> Result<(), Fault>
    ensures printed { OnOk result (Appends (O.contents output.old) (O.contents output.new) (line.now ++ byte "\n" ∷ [])) }
    ensures err { IfErr result (λ fault. fault ≡ Fault.CannotWriteOutput) }
{
    writeln!(output, "{line}").map_err(|_| Fault::CannotWriteOutput)
}

/// Prints what was done to a book, such as `enrolled`, a space, the name of the account, and an LF. It may be called only after the text
/// of a book was written to a file: what is done is saved before it is printed. The only fault is CannotWriteOutput.
pub fn print_done<R: Files, O: Write>(done: &str, name: &str, output: &mut O) -> Result<(), Fault>
    requires { (book : BookFields) × HasStoredText (IsSavedText R.File.contents) book }
    ensures printed { OnOk result (Appends (O.contents output.old) (O.contents output.new)
        (done.now ++ (byte " " ∷ name.now ++ byte "\n" ∷ []))) }
    ensures err { IfErr result (λ fault. fault ≡ Fault.CannotWriteOutput) }
{
    writeln!(output, "{done} {name}").map_err(|_| Fault::CannotWriteOutput)
}
