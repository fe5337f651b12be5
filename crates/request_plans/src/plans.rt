// Plans: what a message does, what is sent and what is answered.
ghost use Rattle.std.specs.Prelude.{◌≡◌};
ghost use Rattle.request_plans.specs.Plans.{ignored, turned, ended, let_go, when_free, plan_at};

use link::Kind;
use requests::{Answer, EndCause, Notice, Phase, Request};

// What a message does to the requests: Options in place of these three would nest.
#[derive(Clone, Copy, PartialEq, Eq, Debug)]
pub enum Change {
    Keep,
    // in the place of the request that the message concerns
    Put(Request),
    // the request's place and its identifier are free
    Free,
}

// What a message does, what is sent, and what is answered.
#[derive(Clone, Copy, PartialEq, Eq, Debug)]
pub struct Plan {
    pub change: Change,
    pub reply: Option<Kind>,
    pub answer: Answer,
}

// Whether the caller is busy, and until when a recall of him would stand.
#[derive(Clone, Copy, PartialEq, Eq, Debug)]
pub struct CallerState {
    pub busy: bool,
    pub recall_until: u64,
}

impl Plan {
    // Nothing is done with the message.
    pub fn ignored() -> Plan
        ensures { result ≡ ignored }
    {
        Plan {
            change: Change::Keep,
            reply: None,
            answer: Answer::dropped(),
        }
    }

    // The request stands as it is given, and nothing is sent.
    fn turned(request: Request, notice: Notice) -> Plan
        ensures { result ≡ turned request notice }
    {
        Plan {
            change: Change::Put(request),
            reply: None,
            answer: Answer::about(request, Some(notice)),
        }
    }

    // The request ends, and CLOSE is sent.
    fn ended(request: Request, cause: EndCause) -> Plan
        ensures { result ≡ ended request cause }
    {
        Plan {
            change: Change::Put(request.at_phase(Phase::Closing)),
            reply: Some(Kind::Close),
            answer: Answer::about(request, Some(Notice::End(cause))),
        }
    }

    // The other office has forgotten the request.
    fn let_go(request: Request) -> Plan
        ensures { result ≡ let_go request }
    {
        Plan {
            change: Change::Free,
            reply: None,
            answer: Answer::about(request, None),
        }
    }
}

// What FREE does to a request that waits for it.
fn when_free(request: Request, caller: CallerState) -> Plan
    ensures { result ≡ when_free caller request }
{
    if caller.busy {
        Plan {
            change: Change::Put(request.at_phase(Phase::Parked)),
            reply: Some(Kind::Suspend),
            answer: Answer::about(request, Some(Notice::FreeNotification)),
        }
    } else {
        Plan::turned(request.recalled_until(caller.recall_until), Notice::Recall)
    }
}

// What a message does to the request that it concerns, by how its caller stands.
pub fn plan_at(request: Request, kind: Kind, caller: CallerState) -> Plan
    ensures { result ≡ plan_at caller request request.phase kind }
{
    match (request.phase, kind) {
        (Phase::Asked, Kind::Yes) => {
            Plan::turned(request.at_phase(Phase::Invoked), Notice::Granted)
        }
        (Phase::Asked, Kind::No(_)) => Plan::ended(request, EndCause::FarEndSaidNo),
        (Phase::Invoked, Kind::Free) => when_free(request, caller),
        (Phase::SettingUp, Kind::BusyAgain) => {
            Plan::turned(request.at_phase(Phase::Invoked), Notice::WaitingAgain)
        }
        (Phase::SettingUp, Kind::Connected) => Plan::ended(request, EndCause::Completed),
        (Phase::SettingUp, Kind::Failed) => Plan::ended(request, EndCause::SetUpFailed),
        (Phase::Closing, Kind::LetGo) => Plan::let_go(request),
        _ => Plan::ignored(),
    }
}
