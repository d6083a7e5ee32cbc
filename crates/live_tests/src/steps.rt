//! Steps of tests on a live cluster, and whether it proposes after each what they say (`follow`).

use crate::proposals::{chosen, propose_alike};
use cap_base::RESOURCES;
use cap_commit::Cluster;
use cap_live::propose_live;
use cap_testing::{Call, WantedContainers, make_call};
use std::alloc::Global;

/// A priority, and how many containers of which resource are wanted for it at which place.
pub(crate) struct Wish(
    pub(crate) u32,
    pub(crate) u32,
    pub(crate) [u64; RESOURCES],
    pub(crate) &'static [u8],
);

/// A call, asks of application 1 with this response id, or the commit of what is proposed from the first node on.
pub(crate) enum Act {
    Call(Call<'static>),
    Ask(u32, &'static [Wish]),
    Commit,
}

/// What is done, and what is proposed after it from the first node on: the priority of the ask and the number of the node.
pub(crate) struct Step(pub(crate) Act, pub(crate) Option<(u32, u64)>);

/// Makes a step. `None` if it is refused, nothing is proposed to be committed, or an allocation fails.
pub(crate) fn make(alloc: Global, cluster: &mut Cluster<RESOURCES>, act: &Act) -> Option<()> {
    match act {
        Act::Call(call) => make_call(alloc, cluster, call),
        Act::Ask(response, wishes) => ask(alloc, cluster, *response, wishes),
        Act::Commit => {
            let proposal = propose_live(cluster, 0)?;
            let _verdict = cluster.try_commit(proposal).ok()?;
            Some(())
        }
    }
}

/// The master of application 1 asks for what it wants.
fn ask(
    alloc: Global,
    cluster: &mut Cluster<RESOURCES>,
    response: u32,
    wishes: &[Wish],
) -> Option<()> {
    let mut asks = Vec::with_capacity(alloc, wishes.len()).ok()?;
    for &Wish(priority, count, resource, place) in wishes {
        asks.push(WantedContainers {
            priority,
            request: 0,
            count,
            resource,
            place,
        })
        .ok()?;
    }
    make_call(alloc, cluster, &Call::Allocate(1, response, &asks, &[]))
}

/// How many of the steps are as they say, each with the same proposals on the cluster and on its snapshot. `None` if these differ, or a
/// step fails.
pub(crate) fn follow(
    alloc: Global,
    cluster: &mut Cluster<RESOURCES>,
    steps: &[Step],
) -> Option<usize> {
    for (index, Step(act, expected)) in steps.iter().enumerate() {
        make(alloc, cluster, act)?;
        if !propose_alike(alloc, cluster)? {
            return None;
        }
        if chosen(cluster) != *expected {
            return Some(index);
        }
    }
    Some(steps.len())
}
