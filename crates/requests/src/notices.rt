// What a call answers.
ghost use Rattle.std.specs.Prelude.{◌≡◌};
ghost use Rattle.requests.specs.Notices.{done, dropped, about, letter, answer_letter, answer_number, answer_identifier, answer_cause, cause, cause_number};

use crate::records::Request;
use fields::Identifier;

// Why a request ended.
#[derive(Clone, Copy, PartialEq, Eq, Debug)]
pub enum EndCause {
    FarEndSaidNo,
    Completed,
    Cancelled,
    TimeOver,
    SetUpFailed,
}

// What the caller is told.
#[derive(Clone, Copy, PartialEq, Eq, Debug)]
pub enum Notice {
    Opened,
    Joined,
    Granted,
    Recall,
    FreeNotification,
    WaitingAgain,
    End(EndCause),
    // a message with which nothing is done
    Dropped,
}

// The number and the identifier of the request that a call touched.
#[derive(Clone, Copy, PartialEq, Eq, Debug)]
pub struct Touched {
    pub number: u64,
    pub identifier: Identifier,
}

// What the caller is told, if anything, and the request that the call touched, if any.
#[derive(Clone, Copy, PartialEq, Eq, Debug)]
pub struct Answer {
    pub notice: Option<Notice>,
    pub touched: Option<Touched>,
}

impl From<EndCause> for u8 {
    ghost from_gives = { λ cause number. number ≡ cause_number cause };

    fn from(cause: EndCause) -> u8 {
        match cause {
            EndCause::FarEndSaidNo => 1,
            EndCause::Completed => 2,
            EndCause::Cancelled => 3,
            EndCause::TimeOver => 4,
            EndCause::SetUpFailed => 5,
        }
    }
}

impl From<Notice> for char {
    ghost from_gives = { λ notice c. c ≡ letter notice };

    fn from(notice: Notice) -> char {
        match notice {
            Notice::Opened => '-',
            Notice::Joined => 'J',
            Notice::Granted => 'G',
            Notice::Recall => 'R',
            Notice::FreeNotification => 'N',
            Notice::WaitingAgain => 'W',
            Notice::End(_) => 'E',
            Notice::Dropped => 'X',
        }
    }
}

impl Notice {
    pub fn cause(self) -> Option<EndCause>
        ensures { result ≡ cause self }
    {
        match self {
            Notice::End(cause) => Some(cause),
            _ => None,
        }
    }
}

impl Answer {
    // Done, and no request was touched. A name of its own reads better than a notice handed in.
    pub fn done() -> Answer
        ensures { result ≡ done }
    {
        Answer {
            notice: None,
            touched: None,
        }
    }

    pub fn dropped() -> Answer
        ensures { result ≡ dropped }
    {
        Answer {
            notice: Some(Notice::Dropped),
            touched: None,
        }
    }

    pub fn about(request: Request, notice: Option<Notice>) -> Answer
        ensures { result ≡ about request notice }
    {
        let touched = Touched {
            number: request.number,
            identifier: request.key.identifier,
        };
        Answer {
            notice,
            touched: Some(touched),
        }
    }

    // The letter of what the caller is told, '-' for nothing.
    pub fn letter(&self) -> char
        ensures { result ≡ answer_letter self.now }
    {
        self.notice.map_or('-', char::from)
    }

    // The number of the request that was touched, 0 where none was.
    pub fn number(&self) -> u64
        ensures { result ≡ answer_number self.now }
    {
        self.touched.map_or(0, |touched| touched.number)
    }

    // The identifier of the request that was touched, 0 where none was.
    pub fn identifier(&self) -> u8
        ensures { result ≡ answer_identifier self.now }
    {
        self.touched
            .map_or(0, |touched| touched.identifier.bits as u8)
    }

    // The number of the cause for which a request ended, 0 where there is none.
    pub fn cause_number(&self) -> u8
        ensures { result ≡ answer_cause self.now }
    {
        self.notice.and_then(Notice::cause).map_or(0, u8::from)
    }
}
