// Reads the answer to LIST.
ghost use Rattle.std.specs.Prelude.{◌≡◌, Result};
ghost use Rattle.pdu.specs.Lists.{listed_request, few_heard, listing, list_ack};
ghost use Rattle.pdu_readers.specs.Reading.{Computes};

use crate::parts::{read_called, read_ccbsi};
use bits::ElementName;
use element::{ListRequest, RejectCause, UpToFive, Verdict};
use pdu::{Few, ListAck, ListedRequest, Listing, RequestCounts};
use source::{Source, read_element};

pub fn read_listed_request<S: Source>(source: S) -> Result<(ListedRequest, S), S::Fault>
    ensures { result ≡ listed_request.hear S.Source.hearing source }
{
    let (ccbsi, source) = read_ccbsi(source)?;
    let (called, source) = read_called(source)?;
    Ok((ListedRequest { ccbsi, called }, source))
}

// Takes a closure: the borrow checker does not cover a generic function that is passed by its name.
fn read_few<S: Source, T: Drop, F: Fn(S) -> Result<(T, S), S::Fault>>(
    source: S,
    count: UpToFive,
    read: F,
) -> Result<(Few<T>, S), S::Fault>
    requires { F.IsAlwaysCallable read }
    ensures { (heard : S → Result (T × S) S.Fault) → Computes F.Fn read heard → result ≡ few_heard heard count source }
{
    let mut few = Few::new();
    let mut source = source;
    for _ in 0..count.count {
        let (item, rest) = read(source)?;
        few.push(item);
        source = rest;
    }
    Ok((few, source))
}

fn read_listing<S: Source>(source: S) -> Result<(Listing, S), S::Fault>
    ensures { result ≡ listing.hear S.Source.hearing source }
{
    let (list_length, source) = read_element(source, ElementName::ListLength)?;
    let (request, source) = read_element::<S, ListRequest>(source, ElementName::ListRequest)?;
    match request {
        ListRequest::Count => {
            let (request_count, source) = read_element(source, ElementName::RequestCount)?;
            Ok((
                Listing::Count(RequestCounts {
                    list_length,
                    request_count,
                }),
                source,
            ))
        }
        ListRequest::Identifiers => {
            let (few, source) = read_few(source, list_length, |source| read_ccbsi(source))?;
            Ok((Listing::Identifiers(few), source))
        }
        ListRequest::Details => {
            let (few, source) = read_few(
                source,
                list_length,
                |source| read_listed_request(source),
            )?;
            Ok((Listing::Details(few), source))
        }
    }
}

pub fn read_list_ack<S: Source>(source: S) -> Result<(ListAck, S), S::Fault>
    ensures { result ≡ list_ack.hear S.Source.hearing source }
{
    let (verdict, source) = read_element::<S, Verdict>(source, ElementName::AcceptReject)?;
    match verdict {
        Verdict::Accepted => {
            let (listing, source) = read_listing(source)?;
            Ok((Ok(listing), source))
        }
        Verdict::Rejected => {
            let (cause, source) = read_element(source, ElementName::RejectCause)?;
            Ok((Err(cause), source))
        }
    }
}
