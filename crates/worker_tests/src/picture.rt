//! One number of all that can be seen of a cluster (`picture_of`): two clusters that differ hardly ever have the same.
use cap_base::RESOURCES;
use cap_commit::Cluster;
use cap_model::{Ask, Key};

/// A number that depends on all numbers that were put, and on their order.
#[derive(Clone, Copy)]
struct Picture {
    number: u64,
}

/// The queues of all settings of random clients.
const PATHS: [&[u8]; 4] = [b"root", b"root.a", b"root.b", b"root.c"];

impl Picture {
    fn put(&mut self, number: u64) {
        let mixed = (self.number ^ number).wrapping_mul(6_364_136_223_846_793_005);
        self.number = (mixed ^ (mixed >> 29)).wrapping_add(1_442_695_040_888_963_407);
    }

    fn put_amounts(&mut self, amounts: [u64; RESOURCES]) {
        for amount in amounts {
            self.put(amount);
        }
    }

    fn put_bytes(&mut self, bytes: &[u8]) {
        self.put(bytes.len() as u64);
        for byte in bytes {
            self.put(u64::from(*byte));
        }
    }

    fn put_key(&mut self, key: Key) {
        self.put(u64::from(key.priority));
        self.put(key.request);
    }
}

/// What can be seen of a cluster: its limits, each queue, application, node, container and reservation, and the numbers to come. What is not yet reported
/// to applications is no part of it.
pub fn picture_of(cluster: &Cluster<RESOURCES>) -> u64 {
    let mut picture = Picture { number: 1 };
    let limits = cluster.settings();
    picture.put_amounts(limits.minimum_allocation.amounts());
    picture.put_amounts(limits.maximum_allocation.amounts());
    picture.put(limits.application_limit);
    put_queues(&mut picture, cluster);
    put_apps(&mut picture, cluster);
    put_nodes(&mut picture, cluster);
    put_containers(&mut picture, cluster);
    picture.number
}

fn put_queues(picture: &mut Picture, cluster: &Cluster<RESOURCES>) {
    for path in PATHS {
        let Some(report) = cluster.report(path) else {
            picture.put(0);
            continue;
        };
        picture.put(if report.running { 2 } else { 1 });
        picture.put(u64::from(report.leaf));
        picture.put_amounts(report.guaranteed.amounts());
        match report.maximum {
            Some(maximum) => picture.put_amounts(maximum.amounts()),
            None => picture.put(0),
        }
        picture.put_amounts(report.used.amounts());
        picture.put(u64::from(report.apps));
    }
}

fn put_apps(picture: &mut Picture, cluster: &Cluster<RESOURCES>) {
    let next = cluster.apps().next();
    picture.put(next);
    for number in 1..next {
        if cluster.apps().app(number).is_some() {
            picture.put(number);
            put_app(picture, cluster, number);
        }
    }
}

fn put_app(picture: &mut Picture, cluster: &Cluster<RESOURCES>, number: u64) {
    let Some(app) = cluster.apps().app(number) else {
        return;
    };
    picture.put_bytes(app.leaf().as_bytes());
    picture.put_bytes(app.user().as_bytes());
    picture.put(u64::from(app.is_registered()));
    picture.put(u64::from(app.response()));
    picture.put(u64::from(app.live()));
    for ask in app.asks() {
        put_ask(picture, ask);
    }
}

fn put_ask(picture: &mut Picture, ask: &Ask<RESOURCES>) {
    picture.put_key(ask.key());
    picture.put(u64::from(ask.count()));
    picture.put_amounts(ask.resource().amounts());
    picture.put_bytes(ask.place().as_bytes());
}

fn put_nodes(picture: &mut Picture, cluster: &Cluster<RESOURCES>) {
    let next = cluster.nodes().next_node();
    picture.put(next);
    for number in 1..next {
        if cluster.nodes().node(number).is_some() {
            picture.put(number);
            put_node(picture, cluster, number);
        }
    }
}

fn put_node(picture: &mut Picture, cluster: &Cluster<RESOURCES>, number: u64) {
    let nodes = cluster.nodes();
    if let Some(node) = nodes.node(number) {
        picture.put_bytes(node.host().as_bytes());
        picture.put_bytes(node.rack().as_bytes());
        picture.put_amounts(node.total().amounts());
        picture.put(u64::from(node.response()));
    }
    if let Some(free) = nodes.free_of(number) {
        picture.put_amounts(free.amounts());
    }
    if let Some(reservation) = nodes.reservation_on(number) {
        picture.put(reservation.app());
        picture.put_key(reservation.key());
        picture.put_amounts(reservation.resource().amounts());
    }
}

fn put_containers(picture: &mut Picture, cluster: &Cluster<RESOURCES>) {
    let next = cluster.nodes().next_container();
    picture.put(next);
    for number in 1..next {
        if let Some(container) = cluster.nodes().container(number) {
            picture.put(number);
            picture.put(container.app());
            picture.put_key(container.key());
            picture.put(container.node());
            picture.put_amounts(container.resource().amounts());
        }
    }
}
