// Writing a reply.
ghost use Rattle.std.specs.Prelude.{Some};
ghost use Rattle.command.specs.Replies.{reply_text};

use std::fmt;

// The columns of a line, as the offices number them: this crate knows no office.
#[derive(Clone, Copy, PartialEq, Eq, Debug)]
pub struct Reply {
    pub number: u8,
    pub notice: char,
    pub request: u64,
    pub identifier: u8,
    pub cause: u8,
}

impl fmt::Display for Reply {
    ghost output = { λ reply. Some (reply_text reply) };

    fn fmt<W: fmt::Write>(&self, f: &mut fmt::Formatter<W>) -> fmt::Result {
        let Reply {
            number,
            notice,
            request,
            identifier,
            cause,
        } = self;
        write!(f, "{number} {notice} {request} {identifier} {cause}")
    }
}
