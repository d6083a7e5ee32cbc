//! Calls as clients make them that do anything (`RandomClient`): most are answered, many refused, and all can be made again by whoever knows the seed.

use crate::spelling::{Call, WantedContainers, frame};
use cap_base::RESOURCES;
use cap_model::{ReplyView, ReplyWith};
use std::alloc::Global;

/// Lower and higher limits of the queues of `TWO_QUEUES`, a stopped queue, and lines that are refused.
const USUAL: &[u8] = b"yarn.scheduler.capacity.root.queues=a,b
yarn.scheduler.capacity.root.a.capacity=[memory=4096,vcores=4]
yarn.scheduler.capacity.root.a.maximum-capacity=[memory=16384,vcores=16]
yarn.scheduler.capacity.root.a.user-limit-factor=4
yarn.scheduler.capacity.root.b.capacity=[memory=2048,vcores=8]
";

const LOWERED: &[u8] = b"yarn.scheduler.capacity.root.queues=a,b
yarn.scheduler.capacity.root.a.capacity=[memory=2048,vcores=2]
yarn.scheduler.capacity.root.a.maximum-capacity=[memory=3072,vcores=3]
yarn.scheduler.capacity.root.b.capacity=[memory=4096,vcores=4,yarn.io/gpu=2]
yarn.scheduler.capacity.root.b.user-limit-factor=3
";

const STOPPED: &[u8] = b"yarn.scheduler.capacity.root.queues=a,b
yarn.scheduler.capacity.root.a.capacity=[memory=1024,vcores=1]
yarn.scheduler.capacity.root.a.state=STOPPED
yarn.scheduler.capacity.root.b.capacity=[memory=8192,vcores=8,yarn.io/gpu=4]
";

const OTHERS: &[u8] = b"yarn.scheduler.capacity.root.queues=a,c
yarn.scheduler.capacity.root.a.capacity=[memory=1024,vcores=1]
";

fn settings(draw: u64) -> &'static [u8] {
    match draw % 4 {
        0 => USUAL,
        1 => LOWERED,
        2 => STOPPED,
        _ => OTHERS,
    }
}

fn path(draw: u64) -> &'static [u8] {
    match draw % 8 {
        0..=3 => b"root.a",
        4..=6 => b"root.b",
        _ => b"root",
    }
}

fn user(draw: u64) -> &'static [u8] {
    match draw % 2 {
        0 => b"u1",
        _ => b"u2",
    }
}

fn host(draw: u64) -> &'static [u8] {
    match draw % 4 {
        0 => b"n1",
        1 => b"n2",
        2 => b"n3",
        _ => b"n4",
    }
}

fn rack(draw: u64) -> &'static [u8] {
    match draw % 2 {
        0 => b"/r1",
        _ => b"/r2",
    }
}

/// A place: anywhere as often as not, and hosts and racks that may be there.
fn place(draw: u64) -> &'static [u8] {
    match draw % 8 {
        0..=3 => b"*",
        4 => b"n1",
        5 => b"n2",
        6 => b"/r2",
        _ => b"/r3",
    }
}

fn total(draw: u64) -> [u64; RESOURCES] {
    match draw % 4 {
        0 => [4096, 4, 0],
        1 => [2048, 8, 2],
        2 => [8192, 2, 1],
        _ => [1024, 1, 0],
    }
}

fn size(draw: u64) -> [u64; RESOURCES] {
    match draw % 4 {
        0 => [1024, 1, 0],
        1 => [2048, 1, 1],
        2 => [512, 3, 0],
        _ => [7168, 1, 0],
    }
}

/// An application of a client.
#[derive(Clone, Copy)]
struct OwnApp {
    number: u64,
    is_registered: bool,
    response: u32,
}

/// A node of a client.
#[derive(Clone, Copy)]
struct OwnNode {
    number: u64,
    response: u32,
}

/// The frame of the Allocate before, said again with no asks.
fn repeated(alloc: Global, app: OwnApp) -> Option<Vec<u8>> {
    let before = app.response.wrapping_sub(1);
    frame(alloc, 2, 1, &Call::Allocate(app.number, before, &[], &[])).ok()
}

/// A client with an application and a node at most. All that it asks for follows from its seed and from what it was answered; it draws the numbers of
/// containers too.
#[derive(Clone, Copy)]
pub struct RandomClient {
    state: u64,
    app: Option<OwnApp>,
    node: Option<OwnNode>,
    // The number of a container that it was granted last.
    granted: u64,
}

impl RandomClient {
    pub fn new(seed: u64) -> RandomClient {
        RandomClient {
            state: seed,
            app: None,
            node: None,
            granted: 1,
        }
    }

    /// The next number that is drawn.
    pub fn draw(&mut self) -> u64 {
        self.state = self
            .state
            .wrapping_mul(6_364_136_223_846_793_005)
            .wrapping_add(1_442_695_040_888_963_407);
        self.state >> 33
    }

    /// The frame of what it calls next. `None` if an allocation fails.
    pub fn next_frame(&mut self, alloc: Global) -> Option<Vec<u8>> {
        match self.app {
            None => {
                let (path, user) = (path(self.draw()), user(self.draw()));
                frame(alloc, 2, 1, &Call::Submit(path, user)).ok()
            }
            Some(app) if !app.is_registered => {
                frame(alloc, 2, 1, &Call::RegisterMaster(app.number)).ok()
            }
            Some(app) => self.frame_of(alloc, app),
        }
    }

    /// The frame of a call of one that has a registered application.
    fn frame_of(&mut self, alloc: Global, app: OwnApp) -> Option<Vec<u8>> {
        match self.draw() % 32 {
            0..=11 => self.allocate(alloc, app),
            12..=17 => self.heartbeat(alloc),
            18 => repeated(alloc, app),
            turn => frame(alloc, 2, 1, &self.other_call(app, turn)).ok(),
        }
    }

    /// A call that lists nothing.
    fn other_call(&mut self, app: OwnApp, turn: u64) -> Call<'static> {
        match turn {
            19..=21 => Call::ClusterInfo,
            22..=24 => Call::QueueInfo(path(self.draw())),
            25 => Call::SetQueueState(path(self.draw()), false),
            26..=28 => Call::SetQueueState(path(self.draw()), true),
            29 => Call::Refresh(settings(self.draw())),
            30 => self.leave_node(),
            _ => Call::FinishMaster(app.number),
        }
    }

    fn allocate(&mut self, alloc: Global, app: OwnApp) -> Option<Vec<u8>> {
        let asks = [self.ask(0), self.ask(1)];
        let releases = [self.container(), self.container()];
        let call = Call::Allocate(app.number, app.response, &asks, &releases);
        frame(alloc, 2, 1, &call).ok()
    }

    /// The number of a container that may be live: one that it was granted, or that came about soon before.
    fn container(&mut self) -> u64 {
        self.granted.saturating_sub(self.draw() % 8).max(1)
    }

    fn ask(&mut self, request: u64) -> WantedContainers<'static> {
        WantedContainers {
            priority: 1 + (self.draw() % 2) as u32,
            request,
            count: (self.draw() % 4) as u32,
            resource: size(self.draw()),
            place: place(self.draw()),
        }
    }

    /// A heartbeat of its node, which it registers where it has none.
    fn heartbeat(&mut self, alloc: Global) -> Option<Vec<u8>> {
        let Some(node) = self.node else {
            let (host, rack) = (host(self.draw()), rack(self.draw()));
            return frame(
                alloc,
                2,
                1,
                &Call::RegisterNode(host, rack, total(self.draw())),
            )
            .ok();
        };
        let ended = [self.container(), self.container()];
        frame(
            alloc,
            2,
            1,
            &Call::Heartbeat(node.number, node.response, &ended),
        )
        .ok()
    }

    fn leave_node(&mut self) -> Call<'static> {
        match self.node.take() {
            Some(node) => Call::NodeGone(node.number),
            None => Call::ClusterInfo,
        }
    }

    /// Takes down what a reply says to its call, for those to come.
    pub fn note(&mut self, reply: &ReplyView<'_, RESOURCES>) {
        match reply {
            ReplyWith::Submit { app } => {
                self.app = Some(OwnApp {
                    number: *app,
                    is_registered: false,
                    response: 0,
                });
            }
            ReplyWith::RegisterMaster { .. } => self.note_registered(),
            ReplyWith::Allocate { reply } => {
                if let Some(container) = reply.grants().last() {
                    self.granted = container.container();
                }
                self.note_response(reply.response);
            }
            ReplyWith::FinishMaster { .. } => self.app = None,
            ReplyWith::RegisterNode { node } => {
                self.node = Some(OwnNode {
                    number: *node,
                    response: 0,
                });
            }
            ReplyWith::Heartbeat { reply } => self.note_heartbeat(reply.response),
            _ => {}
        }
    }

    fn note_registered(&mut self) {
        if let Some(app) = &mut self.app {
            app.is_registered = true;
        }
    }

    fn note_response(&mut self, response: u32) {
        if let Some(app) = &mut self.app {
            app.response = response;
        }
    }

    fn note_heartbeat(&mut self, response: u32) {
        if let Some(node) = &mut self.node {
            node.response = response;
        }
    }
}
