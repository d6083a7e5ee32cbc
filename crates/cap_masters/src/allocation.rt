//! Allocate: a master asks for containers, releases some, and is told grants and ends (`allocate`).
ghost use Rattle.std.specs.Prelude.{◌≡◌, ◌≤◌, ◌+◌, Some, None, IfOk, IfErr, OnOk, OnErr, length, true};
ghost use Rattle.std.specs.List.{list_any};
ghost use Rattle.cap_model.specs.declared.request.Request.TheVariants.{Allocate};
ghost use Rattle.cap_model.specs.Reporting.{HasNumbers, RepliesInFull};
ghost use Rattle.cap_model.specs.declared.reply.ReplyWith.TheVariants as Reply;
ghost use Rattle.cap_base.specs.Limits.{resources_max};
ghost use Rattle.cap_model.specs.Asking.{after_asks};
ghost use Rattle.cap_asks.specs.Apps.{KeepsNumbers, ask_room};
ghost use Rattle.cap_model.specs.Allocate.{allocate_refusal, is_too_large, after_processed_allocate};
ghost use Rattle.cap_masters.specs.Processed.{HasResponse, repeated_at};

use cap_commit::{Cluster, Owner, Reported};
use cap_model::{AllocateNumbers, Ask, Asks, Cause, NoMemory, Numbers, Refusal, Reply};
use cap_vector::fits;

/// A master asks for containers, in MiB, vcores and GPUs, releases some, and reads the oldest 64 grants and 64 ends that were
/// not reported before. Each ask replaces the one of its key, rounded up to a multiple of the minimum allocation and cut to the
/// maximum allocation; a count of 0 takes the key away. A release that names no live container of the application, or one that
/// was named before, is counted as ignored. `response` is the response id of the last reply to the master, 0 at first. A
/// request that comes again with the id of the last processed one is answered with the kept reply and changes nothing. Refused
/// with `UnknownApplication`, `NotRegistered`, `BadResponseId`, `AskTooLarge` (before it is rounded) or `TooManyAsks`, or with
/// `NoMemory` if an allocation fails; a refusal changes nothing.
pub fn allocate<const K: usize>(
    cluster: &mut Cluster<K>,
    app: u64,
    response: u32,
    asks: &Asks<K>,
    releases: &Numbers,
) -> Reply<K>
    ensures replies { RepliesInFull cluster.old.flat (Allocate app response asks.now releases.now)
        result cluster.new.flat }
    ensures numbers { HasNumbers cluster.new.flat result }
{
    let repeated = match admit(cluster, app, response, asks.as_slice()) {
        Ok(repeated) => repeated,
        Err(refusal) => return Reply::Refused(refusal),
    };
    if let Some(reported) = repeated {
        return reply_of(app, reported);
    }
    match process(cluster, app, response, asks, releases) {
        Ok(reported) => reply_of(app, reported),
        Err(NoMemory) => Reply::Refused(Refusal::NoMemory),
    }
}

/// The numbers of the kept reply, where the request repeats the last processed one, none where it doesn't; or the first refusal
/// that holds, memory aside.
fn admit<const K: usize>(
    cluster: &Cluster<K>,
    app: u64,
    response: u32,
    asks: &[Ask<K>],
) -> Result<Option<Reported>, Refusal>
    ensures ok { OnOk result (allocate_refusal cluster.now.flat app response asks.now ≡ None) }
    ensures repeated { IfOk result (λ r. r ≡ repeated_at cluster.now.flat app response) }
    ensures err { IfErr result
        (λ refusal. allocate_refusal cluster.now.flat app response asks.now ≡ Some refusal) }
    ensures resources { K ≤ resources_max }
{
    let Some(app) = cluster.apps().app(app) else {
        return Err(Refusal::UnknownApplication);
    };
    if !app.is_registered() {
        return Err(Refusal::NotRegistered);
    }
    if app.is_bad_id(response) {
        return Err(Refusal::BadResponseId);
    }
    if let Some(reported) = app.repeated(response) {
        return Ok(Some(reported));
    }
    if has_too_large(cluster, asks) {
        return Err(Refusal::AskTooLarge);
    }
    if app.has_too_many_keys(asks) {
        return Err(Refusal::TooManyAsks);
    }
    Ok(None)
}

/// Whether an ask with a count above 0 passes the maximum allocation, before it is rounded.
fn has_too_large<const K: usize>(cluster: &Cluster<K>, asks: &[Ask<K>]) -> bool
    ensures { result ≡ list_any (is_too_large cluster.now.flat) asks.now }
{
    let maximum = cluster.settings().maximum_allocation;
    for ask in asks {
        if ask.count() > 0 && !fits(&ask.resource(), &maximum) {
            return true;
        }
    }
    false
}

/// Puts the asks, ends what is released, and reports the news; the result is the numbers of the reply. `NoMemory` changes nothing.
fn process<const K: usize>(
    cluster: &mut Cluster<K>,
    app: u64,
    response: u32,
    asks: &Asks<K>,
    releases: &Numbers,
) -> Result<Reported, NoMemory>
    requires { HasResponse cluster.old.flat app response }
    ensures ok { OnOk result (cluster.new.flat ≡
        after_processed_allocate cluster.old.flat app response asks.now releases.now) }
    ensures told { IfOk result (λ reported. KeepsNumbers app cluster.new.flat.apps reported) }
    ensures err { OnErr result (cluster.new.flat ≡ cluster.old.flat) }
{
    match cluster.room(app, asks.as_slice().len(), 0, 0) {
        Ok(()) => {}
        Err(NoMemory) => return Err(NoMemory),
    }
    put_asks(cluster, app, asks.as_slice());
    let ignored = cluster.end_named(
        Owner::Application(app),
        releases.as_slice(),
        Cause::Released,
    );
    Ok(cluster.tell(app, ignored))
}

/// Puts the asks, one after the other, for which there is room.
fn put_asks<const K: usize>(cluster: &mut Cluster<K>, app: u64, asks: &[Ask<K>])
    requires { length asks.now ≤ ask_room app cluster.old.accounts }
    ensures { cluster.new.flat ≡ after_asks app asks.now cluster.old.flat }
{
    for ask in asks {
        cluster.put_ask(app, ask);
    }
}

/// The reply of these numbers to an application.
fn reply_of<const K: usize>(app: u64, reported: Reported) -> Reply<K>
    ensures { result ≡ Reply.Allocate (record { app = app; reported = reported }) }
{
    Reply::Allocate {
        reply: AllocateNumbers { app, reported },
    }
}
