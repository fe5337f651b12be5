// Lines of any bytes from an input, and an answer to each.
#![tactic(auto)]

ghost use Rattle.std.specs.Prelude.{◌≡◌, ℕ, List, [], ◌∷◌, ◌++◌, false, vec_len, IfOk, IfSome, OnOk};
ghost use Rattle.std.specs.Io.BufRead.{strip_last};
ghost use Rattle.std.specs.Io.KnownBytes.{Appends};
ghost use Rattle.line_input.specs.Lines.{answers, Gives, ReadsLine};

use std::alloc::{AllocError, Global};
use std::io;
use std::io::{BufRead, ErrorKind, Write};

fn drop_line_break(line: &mut Vec<u8>)
    ensures { line.new.items ≡ strip_last 10 line.old.items }
{
    if line.last().copied() == Some(b'\n') {
        let _ = line.pop();
    }
}

// Reads the next line without its end; false, and an empty line, where the input has ended.
pub fn next_line<R: BufRead>(input: &mut R, line: &mut Vec<u8>) -> io::Result<bool>
    ensures known { IfOk result (λ more. ReadsLine more (R.BufRead.remaining input.old) line.new.items (R.BufRead.remaining input.new)) }
    ensures ended { IfOk result (λ more. more ≡ false → vec_len line.new ≡ 0) }
{
    line.clear();
    if input.read_until(b'\n', line)? == 0 {
        return Ok(false);
    }
    drop_line_break(line);
    Ok(true)
}

fn answer_line<W: Write, F: Fn(Global, &[u8]) -> Result<String, AllocError>>(
    heap: Global,
    line: &[u8],
    output: &mut W,
    answer: &F,
) -> io::Result<()>
    requires { F.IsAlwaysCallable answer.now }
    ensures { (text : List ℕ → List ℕ) → Gives (F.post answer.now heap) text → OnOk result (Appends (W.contents output.old) (W.contents output.new) (text line.now ++ 10 ∷ [])) }
{
    // One write for all of it: who follows the output never sees an answer without its line break.
    let mut text = answer(heap, line)?;
    text.push('\n')?;
    output.write_all(text.as_bytes())
}

// Answers each line of the input, any bytes without its end, with one line of the output.
// The lines take turns in one buffer, so that no more memory is held than the longest needs.
pub fn answer_lines<
    R: BufRead + Drop,
    W: Write,
    F: Fn(Global, &[u8]) -> Result<String, AllocError>,
>(heap: Global, mut input: R, output: &mut W, answer: F) -> io::Result<()>
    requires { F.IsAlwaysCallable answer }
    ensures { (text : List ℕ → List ℕ) → Gives (F.post answer heap) text
        → OnOk result (IfSome (R.BufRead.remaining input) (λ bytes. Appends (W.contents output.old) (W.contents output.new) (answers text bytes))) }
{
    let mut line = Vec::new(heap);
    for _ in 0..u64::MAX {
        if !next_line(&mut input, &mut line)? {
            return Ok(());
        }
        answer_line(heap, &line, output, &answer)?;
    }
    Err(io::Error::from(ErrorKind::Other))
}
