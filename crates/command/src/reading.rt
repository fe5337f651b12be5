// Reading a command.
ghost use Rattle.std.specs.Prelude.{◌≡◌};
ghost use Rattle.command.specs.Commands.{alone, terminating_by, originating_by, caller_by, lettered_by, read_as};

use crate::commands::{Command, Unreadable};
use text::Words;

// The command, where no word follows its letter.
fn bare_command(words: Words<'_>, command: Command) -> Option<Command>
    ensures { result ≡ alone command words.entry }
{
    let [] = words.numbers::<0>()?;
    Some(command)
}

// The letters stand in four functions, each short. By `?`, since `map` leaves a goal for each letter.

// The letters of the terminating office.
fn terminating_command(letter: char, words: Words<'_>) -> Option<Command>
    ensures { result ≡ terminating_by letter words.entry }
{
    match letter {
        'm' => {
            let [line, mark] = words.numbers::<2>()?;
            Some(Command::MarkLine { line, mark })
        }
        'v' => {
            let [line] = words.numbers::<1>()?;
            Some(Command::ServeLine { line })
        }
        'e' => {
            let [line, outcome] = words.numbers::<2>()?;
            Some(Command::LineOutcome { line, outcome })
        }
        'f' => bare_command(words, Command::HearTerminating),
        _ => None,
    }
}

// The letters of the originating office for what happens there, and what `terminating_command` reads.
fn originating_command(letter: char, words: Words<'_>) -> Option<Command>
    ensures { result ≡ originating_by letter words.entry }
{
    match letter {
        'b' => {
            let [caller, mark] = words.numbers::<2>()?;
            Some(Command::MarkCaller { caller, mark })
        }
        'w' => {
            let [caller] = words.numbers::<1>()?;
            Some(Command::Wake { caller })
        }
        't' => {
            let [time] = words.numbers::<1>()?;
            Some(Command::Tick { time })
        }
        'd' => bare_command(words, Command::Due),
        'o' => bare_command(words, Command::HearOriginating),
        _ => terminating_command(letter, words),
    }
}

// The letters for what a caller asks for, and what `originating_command` reads.
fn caller_command(letter: char, words: Words<'_>) -> Option<Command>
    ensures { result ≡ caller_by letter words.entry }
{
    match letter {
        'r' => {
            let [caller, called, identifier, priority, service] = words.numbers::<5>()?;
            Some(Command::Retain {
                caller,
                called,
                identifier,
                priority,
                service,
            })
        }
        'q' => {
            let [caller, identifier] = words.numbers::<2>()?;
            Some(Command::Request { caller, identifier })
        }
        'a' => {
            let [caller, identifier] = words.numbers::<2>()?;
            Some(Command::Accept { caller, identifier })
        }
        'c' => {
            let [caller, identifier] = words.numbers::<2>()?;
            Some(Command::Cancel { caller, identifier })
        }
        _ => originating_command(letter, words),
    }
}

// What any letter and the words after it ask for.
fn lettered_command(letter: char, words: Words<'_>) -> Option<Command>
    ensures { result ≡ lettered_by letter words.entry }
{
    match letter {
        's' => {
            let [identity] = words.numbers::<1>()?;
            Some(Command::Subscriber { identity })
        }
        'l' => {
            let [identity, service] = words.numbers::<2>()?;
            Some(Command::Line { identity, service })
        }
        'g' => bare_command(words, Command::Start),
        _ => caller_command(letter, words),
    }
}

impl TryFrom<&[u8]> for Command {
    type Error = Unreadable;

    ghost try_from_gives = { λ line command. command ≡ read_as line.now };

    fn try_from(line: &[u8]) -> Result<Command, Unreadable> {
        let mut words = Words::of(line);
        let Some([letter]) = words.next() else {
            return Err(Unreadable);
        };
        lettered_command(char::from(*letter), words).ok_or(Unreadable)
    }
}
