// Tells the answer to LIST.
ghost use Rattle.std.specs.Prelude.{◌≡◌, [], List};
ghost use Rattle.std.specs.List.{flat_map};
ghost use Rattle.source.specs.declared.told.Told.{Told};
ghost use Rattle.pdu.specs.Lists.{few_tag, listed_request, list_head, listing, list_ack};
ghost use Rattle.pdu_telling.specs.Telling.{Tells};

use crate::parts::tell_called;
use bits::ElementName;
use element::{ListRequest, UpToFive, Verdict};
use pdu::{Few, ListAck, ListedRequest, Listing};
use source::{Listener, tell};

pub fn tell_listed_request<L: Listener>(told: &mut L, request: &ListedRequest)
    ensures { told.new ≡ L.after told.old (listed_request.tell request.now) }
{
    tell(told, ElementName::Ccbsi, &request.ccbsi);
    tell_called(told, &request.called);
}

// `stands` is no law of a listener: bits that are too many are cut off even where nothing is told.
fn tell_items<L: Listener, T, F: Fn(&mut L, &T)>(told: &mut L, items: &[T], tell: F)
    requires callable { F.IsAlwaysCallable tell }
    requires stands { L.after told.old [] ≡ told.old }
    ensures { (p : T → List Told) → Tells F.Fn tell L.after p → told.new ≡ L.after told.old (flat_map p items.now) }
{
    for item in items {
        tell(told, item);
    }
}

fn few_count<T>(few: &Few<T>) -> UpToFive
    ensures { result ≡ few_tag few.now }
{
    few.count()
}

fn tell_list_head<L: Listener>(told: &mut L, count: &UpToFive, request: &ListRequest)
    ensures { told.new ≡ L.after told.old (list_head.tell (count.now, request.now)) }
{
    tell(told, ElementName::ListLength, count);
    tell(told, ElementName::ListRequest, request);
}

fn tell_listing<L: Listener>(told: &mut L, listed: &Listing)
    ensures { told.new ≡ L.after told.old (listing.tell listed.now) }
{
    match listed {
        Listing::Count(counts) => {
            tell_list_head(told, &counts.list_length, &ListRequest::Count);
            tell(told, ElementName::RequestCount, &counts.request_count);
        }
        Listing::Identifiers(few) => {
            tell_list_head(told, &few_count(few), &ListRequest::Identifiers);
            tell_items(told, few.members().as_slice(), |told, ccbsi| {
                tell(told, ElementName::Ccbsi, ccbsi)
            });
        }
        Listing::Details(few) => {
            tell_list_head(told, &few_count(few), &ListRequest::Details);
            tell_items(told, few.members().as_slice(), tell_listed_request);
        }
    }
}

pub fn tell_list_ack<L: Listener>(told: &mut L, ack: &ListAck)
    ensures { told.new ≡ L.after told.old (list_ack.tell ack.now) }
{
    match ack {
        Ok(listing) => {
            tell(told, ElementName::AcceptReject, &Verdict::Accepted);
            tell_listing(told, listing);
        }
        Err(cause) => {
            tell(told, ElementName::AcceptReject, &Verdict::Rejected);
            tell(told, ElementName::RejectCause, cause);
        }
    }
}
