// The entries of a list.
ghost use Rattle.std.specs.Prelude.{◌≡◌};
ghost use Rattle.request_list.specs.Lists.{entry_of};

use requests::Request;

// A request as it is listed, in plain numbers, all zero where there is none: the caller supplies
// the places and reads them as they are.
#[derive(Clone, Copy, PartialEq, Eq, Default, Debug)]
pub struct ListedRequest {
    pub number: u64,
    pub identifier: u8,
    pub called: u64,
}

impl From<Request> for ListedRequest {
    ghost from_gives = { λ request entry. entry ≡ entry_of request };

    fn from(request: Request) -> ListedRequest {
        ListedRequest {
            number: request.number,
            identifier: request.key.identifier.bits as u8,
            called: request.key.called.bits,
        }
    }
}
