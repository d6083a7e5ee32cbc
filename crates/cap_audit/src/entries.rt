//! One line played on the cluster (`follow`): an epoch that begins or ends, a call, a grant or a reservation.
ghost use Rattle.std.specs.Prelude.{◌≡◌, ◌↔◌, ◌++◌, IfErr, IfOk, OnOk, codes, false, true};
ghost use Rattle.cap_model.specs.Reporting.{full_reply};
ghost use Rattle.cap_model.specs.Events.{is_no_memory};
ghost use Rattle.cap_model.specs.Flat.{Flat};
ghost use Rattle.cap_base.specs.Limits.{resources};
ghost use Rattle.cap_journal.specs.Lines.{event_words};
ghost use Rattle.cap_audit.specs.declared.place.Place.{Place};
ghost use Rattle.cap_audit.specs.Audit.{Closes, Enters, FitsProposal, IsNoWay, IsOnlyWay, Makes, Opens, PlaysOn};
ghost use Rattle.cap_audit.specs.Onward.{IfFalse, MakesNone, MakesOnly, Tells};
ghost use Rattle.cap_audit.specs.Reading.{IsNoCall, IsProposedBy};

use crate::place::Place;
use crate::reading::{call_in, next_number, proposal_in};
use crate::stop::{Stop, Why, stop_of};
use cap_base::RESOURCES;
use cap_commit::Cluster;
use cap_journal::{Out, put_call, put_closed, put_epoch, put_grant, put_reserve};
use cap_messages::{Reply, dispatch};
use cap_model::{Event, NoMemory, Proposal, ProposalKind, Refusal, ReplyWith, Verdict};
use std::alloc::{AllocError, Global};

/// Plays one line that is no property line.
pub(crate) fn follow(
    alloc: Global,
    message: &mut Out,
    cluster: &mut Cluster<RESOURCES>,
    place: &mut Place,
    line: &[u8],
) -> Result<(), Stop>
    ensures plays { OnOk result
        (PlaysOn line.now place.old place.new cluster.old.flat cluster.new.flat) }
    ensures only { Tells result
        (IsOnlyWay line.now place.old place.new cluster.old.flat cluster.new.flat)
        (IsNoWay line.now place.old cluster.old.flat) }
{
    if line.starts_with(b"epoch ") {
        return open_epoch(alloc, place, line);
    }
    if line.starts_with(b"closed ") {
        return close_epoch(alloc, place, line);
    }
    let after = match with_entry(*place) {
        Ok(after) => after,
        Err(stop) => return Err(stop),
    };
    match enter(alloc, message, cluster, line) {
        Ok(()) => {
            *place = after;
            Ok(())
        }
        Err(stop) => Err(stop),
    }
}

/// The place behind one more entry.
fn with_entry(place: Place) -> Result<Place, Stop>
    ensures enters { IfOk result (λ after. Enters place after) }
    ensures none { IfErr result (λ stop. IfFalse stop (place.inside ≡ false)) }
{
    if !place.inside {
        return Err(Stop::False(Why::NoEpoch));
    }
    match place.entries.checked_add(1) {
        Some(entries) => Ok(Place { entries, ..place }),
        None => Err(Stop::Input),
    }
}

/// Whether these bytes are the words.
fn are_same(bytes: &[u8], words: &[u8]) -> bool
    ensures { result ≡ true ↔ bytes.now ≡ words.now }
{
    bytes == words
}

/// Plays the line with which an epoch begins.
fn open_epoch(alloc: Global, place: &mut Place, line: &[u8]) -> Result<(), Stop>
    ensures opens { OnOk result (Opens line.now place.old place.new) }
    ensures none { IfErr result
        (λ stop. IfFalse stop ((next : Place) → Opens line.now place.old next → ⊥)) }
{
    if place.inside {
        return Err(Stop::False(Why::NotClosed));
    }
    let Some(epochs) = place.epochs.checked_add(1) else {
        return Err(Stop::Input);
    };
    let mut words = Vec::new(alloc);
    put_epoch(&mut words, epochs)?;
    if !are_same(line, &words) {
        return Err(Stop::False(Why::OtherEpoch(epochs)));
    }
    *place = Place {
        epochs,
        inside: true,
        entries: 0,
    };
    Ok(())
}

/// Plays the line with which an epoch ends.
fn close_epoch(alloc: Global, place: &mut Place, line: &[u8]) -> Result<(), Stop>
    ensures closes { OnOk result (Closes line.now place.old place.new) }
    ensures none { IfErr result
        (λ stop. IfFalse stop ((next : Place) → Closes line.now place.old next → ⊥)) }
{
    if !place.inside {
        return Err(Stop::False(Why::NoEpoch));
    }
    let mut words = Vec::new(alloc);
    put_closed(&mut words, place.entries)?;
    if !are_same(line, &words) {
        return Err(Stop::False(Why::OtherCount(place.entries)));
    }
    place.inside = false;
    Ok(())
}

/// Makes the event of the line of an entry.
fn enter(
    alloc: Global,
    message: &mut Out,
    cluster: &mut Cluster<RESOURCES>,
    line: &[u8],
) -> Result<(), Stop>
    ensures makes { OnOk result (Makes line.now cluster.old.flat cluster.new.flat) }
    ensures only { Tells result (MakesOnly line.now cluster.old.flat cluster.new.flat)
        (MakesNone line.now cluster.old.flat) }
{
    if let Some(rest) = line.strip_prefix(b"call ") {
        return call(alloc, message, cluster, line, rest);
    }
    if let Some(rest) = line.strip_prefix(b"grant") {
        return grant(alloc, cluster, line, rest);
    }
    if let Some(rest) = line.strip_prefix(b"reserve") {
        return reserve(alloc, cluster, line, rest);
    }
    Err(Stop::False(Why::NoLine))
}

/// Makes the call of a line, of which the request follows its first word. Its reply is the cluster's.
fn call(
    alloc: Global,
    message: &mut Out,
    cluster: &mut Cluster<RESOURCES>,
    line: &[u8],
    rest: &[u8],
) -> Result<(), Stop>
    requires { line.now ≡ codes "call " ++ rest.now }
    ensures makes { OnOk result (Makes line.now cluster.old.flat cluster.new.flat) }
    ensures only { Tells result (MakesOnly line.now cluster.old.flat cluster.new.flat)
        (MakesNone line.now cluster.old.flat) }
{
    let (by, request) = match call_in(alloc, rest) {
        Ok(call) => call,
        Err(stop) => return Err(stop),
    };
    let given = dispatch(alloc, cluster, &request);
    if is_want_of_memory(&given) {
        return Err(Stop::NoMemory);
    }
    let mut words = Vec::new(alloc);
    match put_call(message, &mut words, by, &request, &cluster.view(&given)) {
        Ok(()) => {}
        Err(fault) => return Err(stop_of(fault)),
    }
    if !are_same(line, &words) {
        return Err(Stop::False(Why::OtherReply));
    }
    Ok(())
}

/// Whether a call was answered that no memory was found.
fn is_want_of_memory(given: &Reply<RESOURCES>) -> bool
    ensures { (cluster : Flat resources) → is_no_memory (full_reply cluster given.now) ≡ result }
{
    match given {
        ReplyWith::Refused(Refusal::NoMemory) => true,
        _ => false,
    }
}

/// Makes the grant of a line, of which its numbers follow the first word.
fn grant(
    alloc: Global,
    cluster: &mut Cluster<RESOURCES>,
    line: &[u8],
    rest: &[u8],
) -> Result<(), Stop>
    requires { line.now ≡ codes "grant" ++ rest.now }
    ensures makes { OnOk result (Makes line.now cluster.old.flat cluster.new.flat) }
    ensures only { Tells result (MakesOnly line.now cluster.old.flat cluster.new.flat)
        (MakesNone line.now cluster.old.flat) }
{
    let Some((number, numbers)) = next_number(rest) else {
        return Err(Stop::False(Why::NoLine));
    };
    let Some(proposal) = proposal_in(ProposalKind::Grant, numbers) else {
        return Err(Stop::False(Why::NoLine));
    };
    commit(alloc, cluster, line, proposal, number)
}

/// Makes the reservation of a line, of which its numbers follow the first word.
fn reserve(
    alloc: Global,
    cluster: &mut Cluster<RESOURCES>,
    line: &[u8],
    rest: &[u8],
) -> Result<(), Stop>
    requires { line.now ≡ codes "reserve" ++ rest.now }
    ensures makes { OnOk result (Makes line.now cluster.old.flat cluster.new.flat) }
    ensures only { Tells result (MakesOnly line.now cluster.old.flat cluster.new.flat)
        (MakesNone line.now cluster.old.flat) }
{
    let Some(proposal) = proposal_in(ProposalKind::Reserve, rest) else {
        return Err(Stop::False(Why::NoLine));
    };
    commit(alloc, cluster, line, proposal, 0)
}

/// Makes the proposal of a line, where it is admissible, and what comes of it is what the line says. A grant is to be of the container of this
/// number.
fn commit(
    alloc: Global,
    cluster: &mut Cluster<RESOURCES>,
    line: &[u8],
    proposal: Proposal<RESOURCES>,
    number: u64,
) -> Result<(), Stop>
    requires { IsProposedBy line.now proposal }
    ensures makes { OnOk result (Makes line.now cluster.old.flat cluster.new.flat) }
    ensures only { Tells result (MakesOnly line.now cluster.old.flat cluster.new.flat)
        (MakesNone line.now cluster.old.flat) }
{
    proposal_fits(&proposal);
    let event = match cluster.try_commit(proposal) {
        Ok(Verdict::Done(event)) => event,
        Ok(Verdict::Rejected(reason)) => return Err(Stop::False(Why::Inadmissible(reason))),
        Err(NoMemory) => return Err(Stop::NoMemory),
    };
    let mut words = Vec::new(alloc);
    put_made(&mut words, &event)?;
    if !are_same(line, &words) {
        return Err(Stop::False(other_event(&event, number)));
    }
    Ok(())
}

/// The bounds that a proposal's numbers have by their types.
fn proposal_fits(proposal: &Proposal<RESOURCES>)
    ensures { FitsProposal proposal.now }
{
    let _numbers = (proposal.app(), proposal.key(), proposal.node());
    let _resource = proposal.resource();
}

/// Puts the line of a grant or a reservation.
fn put_made(line: &mut Vec<u8>, event: &Event<RESOURCES>) -> Result<(), AllocError>
    requires { IsNoCall event.now }
    ensures { OnOk result (line.new.items ≡ line.old.items ++ event_words event.now) }
{
    match event {
        Event::Call { .. } => unreachable!(),
        Event::Grant { container } => put_grant(line, container),
        Event::Reserve { reservation } => put_reserve(line, reservation),
    }
}

/// What is false about a line whose proposal came to another event than it says.
fn other_event(event: &Event<RESOURCES>, number: u64) -> Why {
    match event {
        Event::Grant { container } if container.number() != number => {
            Why::OtherContainer(container.number())
        }
        _ => Why::NoLine,
    }
}
