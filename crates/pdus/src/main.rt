// Reads and writes PDUs: answers each line of the input with one line.
#![tactic(auto)]

ghost use Rattle.std.specs.Prelude.{IfSome, OnOk};
ghost use Rattle.std.specs.Io.KnownBytes.{Appends};
ghost use Rattle.line_input.specs.Lines.{answers};
ghost use Rattle.pdu_lines.specs.Lines.{answer_of};

use line_input::answer_lines;
use pdu_lines::answer;
use std::alloc::Global;
use std::io;
use std::io::{BufRead, BufReader, Write};

fn run<R: BufRead + Drop, W: Write>(heap: Global, input: R, output: &mut W) -> io::Result<()>
    ensures { OnOk result (IfSome (R.BufRead.remaining input) (λ bytes. Appends (W.contents output.old) (W.contents output.new) (answers answer_of bytes))) }
{
    answer_lines(heap, input, output, answer)
}

fn main(rt: HostRuntime) -> io::Result<()> {
    let input = BufReader::new(rt.alloc(), rt.stdin())?;
    run(rt.alloc(), input, &mut io::writer(&rt))
}
