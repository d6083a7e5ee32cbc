//! Clusters that three clients and proposals have brought about: proposals on them are those on their snapshots.

use crate::proposals::propose_alike;
use cap_base::RESOURCES;
use cap_commit::Cluster;
use cap_live::propose_live;
use cap_messages::{dispatch, read_request};
use cap_model::{Event, ReplyWith, Verdict};
use cap_testing::{RandomClient, TWO_QUEUES, cluster};
use std::alloc::Global;
use std::test::*;

/// What was seen of many rounds.
#[derive(Clone, Copy)]
struct Seen {
    refused: u32,
    granted: u32,
    reserved: u32,
    unlike: u32,
}

/// Makes the next call of a client, and tells the client what it is answered. Whether it is refused; `None` if an allocation fails.
fn call(
    alloc: Global,
    cluster: &mut Cluster<RESOURCES>,
    client: &mut RandomClient,
) -> Option<bool> {
    let bytes = client.next_frame(alloc)?;
    let (_, request) = read_request(alloc, bytes.get(4..)?).ok()?;
    match dispatch(alloc, cluster, &request) {
        ReplyWith::Refused(_) => Some(true),
        reply => {
            client.note(&cluster.view(&reply));
            Some(false)
        }
    }
}

/// Makes the next call of each client, and then what is proposed from the node at `start` on.
fn play_round(
    alloc: Global,
    cluster: &mut Cluster<RESOURCES>,
    clients: &mut [RandomClient],
    start: u32,
    seen: &mut Seen,
) -> Option<()> {
    for client in clients {
        if call(alloc, cluster, client)? {
            seen.refused = seen.refused.saturating_add(1);
        }
        if !propose_alike(alloc, cluster)? {
            seen.unlike = seen.unlike.saturating_add(1);
        }
    }
    let Some(proposal) = propose_live(cluster, start) else {
        return Some(());
    };
    match cluster.try_commit(proposal).ok()? {
        Verdict::Done(Event::Grant { .. }) => seen.granted = seen.granted.saturating_add(1),
        Verdict::Done(_) => seen.reserved = seen.reserved.saturating_add(1),
        Verdict::Rejected(_) => seen.unlike = seen.unlike.saturating_add(1),
    }
    Some(())
}

/// What is seen of so many rounds, of three clients. `None` if an allocation fails.
fn played(alloc: Global, rounds: u32, seed: u64) -> Option<Seen> {
    let mut cluster = cluster(alloc, TWO_QUEUES)?;
    let mut clients = [
        RandomClient::new(seed),
        RandomClient::new(seed.wrapping_add(1)),
        RandomClient::new(seed.wrapping_add(2)),
    ];
    let mut seen = Seen {
        refused: 0,
        granted: 0,
        reserved: 0,
        unlike: 0,
    };
    for round in 0..rounds {
        play_round(alloc, &mut cluster, &mut clients, round, &mut seen)?;
    }
    Some(seen)
}

#[test]
fn proposals_on_random_clusters_are_those_on_their_snapshots(rt: HostRuntime) {
    let seen = played(rt.alloc(), 1000, 7);
    assert!(rt; seen.is_some());
    let unlike = seen.is_some_and(|seen| seen.unlike > 0);
    let made = seen.is_some_and(|seen| seen.granted >= 100 && seen.reserved >= 10);
    let refused = seen.is_some_and(|seen| seen.refused >= 100);
    assert!(rt; !unlike);
    assert!(rt; made);
    assert!(rt; refused);
}
