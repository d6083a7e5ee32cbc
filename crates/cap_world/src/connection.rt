//! One connection of a world: its session, and whether it is open (`Connection`, `Standing`).
ghost use Rattle.std.specs.Prelude.{◌≡◌, IfOk};
ghost use Rattle.cap_world.specs.Connection.{new_connection, is_open_standing};
ghost use Rattle.cap_world.specs.Serving.{Feeds};

use crate::service::answer_all;
use cap_base::RESOURCES;
use cap_commit::Cluster;
use cap_model::{Event, NoMemory};
use cap_session::{Fed, Session};
use std::alloc::Global;
use std::marker::Model;

/// The state of a connection.
#[derive(Clone, Copy, Debug, PartialEq, Eq)]
pub enum Standing {
    Open,
    /// It was ended from outside.
    Ended,
    /// A length came that no frame has.
    Faulted,
    /// Memory was refused.
    Starved,
}

/// One connection. Contracts see its state, and its session, of which nothing is ever written out.
pub(crate) struct Connection {
    standing: Standing,
    session: Session,
}

impl Drop for Connection {
    fn drop(self) {
        let Connection {
            standing: _,
            session: _,
        } = self;
    }
}

impl Model for Connection {
    ghost use Rattle.cap_world.specs.Connection.{Connection as Seen, WritesNothingOut};

    ghost Value = { Seen };

    ghost view = { λ c. record { standing = c.standing; session = c.session } };

    ghost invariant = { λ c. WritesNothingOut c.standing c.session };
}

impl Connection {
    /// A connection that brought nothing. Without memory there is none.
    pub(crate) fn open(alloc: Global) -> Result<Connection, NoMemory>
        ensures { IfOk result (λ connection. connection ≡ new_connection) }
    {
        Ok(Connection {
            standing: Standing::Open,
            session: Session::open(alloc)?,
        })
    }

    pub(crate) fn is_open(&self) -> bool
        ensures { result ≡ is_open_standing self.now.standing }
    {
        self.standing == Standing::Open
    }

    /// All that it was ever answered.
    pub(crate) fn output(&self) -> &[u8]
        ensures { result.now ≡ self.now.session.unsent }
    {
        self.session.unsent()
    }

    /// Ends it.
    pub(crate) fn end(&mut self)
        ensures { self.new ≡ record self.old { standing = Standing.Ended } }
    {
        self.standing = Standing::Ended;
    }

    /// Takes a piece, answers each request that it completes, and gives its state then. If an allocation failed it has ended,
    /// and what was answered before stays.
    pub(crate) fn feed(
        &mut self,
        alloc: Global,
        by: u32,
        piece: &[u8],
        cluster: &mut Cluster<RESOURCES>,
        events: &mut Vec<Event<RESOURCES>>,
    ) -> Standing
        requires { self.old.standing ≡ Standing.Open }
        ensures fed { Feeds by piece.now cluster.old.flat cluster.new.flat
            events.old.items events.new.items self.old self.new }
        ensures standing { self.new.standing ≡ result }
    {
        if let Fed::Ended(_) = self.session.feed(piece) {
            self.standing = Standing::Starved;
            return Standing::Starved;
        }
        self.standing = answer_all(alloc, by, &mut self.session, cluster, events);
        self.standing
    }
}
