//! Laws of what the bytes of a request call for.
ghost use Rattle.review_http_requests.specs.RequestLaws.{CutsDoNotMatter, CallForOneThing, WaitingCallsForNothing, NothingCallsForNothing, NothingIsEmpty};

/// What is told of the bytes that a reader gave is what all its bytes call for, wherever the reading stopped: neither the cuts between reads
/// nor the bytes behind a request matter.
pub fn cuts_do_not_matter()
    ensures { CutsDoNotMatter }
{}

/// Bytes call for one delivery or one fault; only where a head is malformed and also too large is it open which of the two faults it is.
pub fn calls_for_one_thing()
    ensures { CallForOneThing }
{}

/// Where no whole request is there yet, nor a fault of its head, bytes call for nothing, but for a target that no bytes make UTF-8 and whose end
/// hasn't come, and for more than 64 fields of a head whose end hasn't come.
pub fn waiting_calls_for_nothing()
    ensures { WaitingCallsForNothing }
{}

/// Where the input ended before its first byte, no delivery and no fault of a request is told.
pub fn nothing_calls_for_nothing()
    ensures { NothingCallsForNothing }
{}

/// Such an input is told as empty, unless the reader failed or memory ran out.
#[tactic(auto, using(crate::proofs::Telling::empty))]
pub fn nothing_is_empty()
    ensures { NothingIsEmpty }
{}
