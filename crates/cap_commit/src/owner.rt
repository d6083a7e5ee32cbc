//! Whose containers: those of an application, or those on a node (`Owner`).
ghost use Rattle.std.specs.Prelude.{◌≡◌};
ghost use Rattle.cap_commit.specs.Owners.{owns};

use cap_nodes::Container;

/// Whose containers: those of an application, or those on a node, by its number.
#[derive(Clone, Copy, Debug)]
pub enum Owner {
    Application(u64),
    Node(u64),
}

impl Owner {
    /// Whether it owns the container.
    pub(crate) fn has<const K: usize>(self, container: &Container<K>) -> bool
        ensures { result ≡ owns self container.now }
    {
        match self {
            Owner::Application(number) => container.app() == number,
            Owner::Node(number) => container.node() == number,
        }
    }
}
