// The requests to be listed, by number.
ghost use Rattle.std.specs.Prelude.{◌≡◌, map};
ghost use Rattle.request_list.specs.Lists.{entry_of, listed_after, five_of, listed};

use crate::entries::ListedRequest;
use arrayvec::ArrayVec;
use fields::{Identity, Refusal};
use requests::Request;
use requests::least::smallest;

// How many requests are listed at most.
const ENTRIES: usize = 5;

fn listed_after(requests: &[Request], caller: Identity, last: u64) -> Option<Request>
    ensures { result ≡ listed_after requests.now caller last }
{
    smallest(requests, |request| request.is_listed(caller, last))
}

// The entries of the first five. A struct of the two would be made once and taken apart once.
fn first_five(requests: &[Request], caller: Identity) -> ArrayVec<ListedRequest, ENTRIES>
    ensures { result.items ≡ map entry_of (five_of requests.now caller) }
{
    let mut five = ArrayVec::new();
    let mut last = 0;
    while !five.is_full() {
        let Some(request) = listed_after(requests, caller, last) else {
            break;
        };
        five.push(ListedRequest::from(request));
        last = request.number;
    }
    five
}

// Writes the caller's live requests that the other office took, by number, into the first five
// of the places, of which those left over are zeroed. Answers how many entries it wrote.
pub fn write_list(
    requests: &[Request],
    caller: Identity,
    places: &mut [ListedRequest],
) -> Result<usize, Refusal>
    ensures { (result, places.new) ≡ listed requests.now caller places.old }
{
    if places.len() < ENTRIES {
        return Err(Refusal::TooLittleRoom);
    }
    let five = first_five(requests, caller);
    let written = five.len();
    places[..written].copy_from_slice(&five);
    places[written..ENTRIES].fill(ListedRequest::default());
    Ok(written)
}
