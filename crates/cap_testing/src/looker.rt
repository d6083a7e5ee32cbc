//! A replica and its seat, which takes what is new in the journal (`Looker`), and makes it again or lets it go.
ghost use Rattle.std.specs.Prelude.{◌≡◌, ◌+◌, ◌++◌, MatchResult, length};
ghost use mathlib.Core.List.{IsPrefix};
ghost use Rattle.cap_shared.specs.Following.{Follows, IsNews, LeadsOn};

use cap_base::RESOURCES;
use cap_commit::Cluster;
use cap_model::NoMemory;
use cap_shared::{Closed, Naming, Piece, Replica, Seat, Shared};
use std::marker::Model;
use std::sync::Wait;

/// A seat, and a replica that has followed what the seat was noted. Contracts see what the seat was answered.
pub struct Looker<J: Naming> {
    seat: Seat<J>,
    replica: Replica<J>,
}

impl<J: Naming> Drop for Looker<J> {
    fn drop(self) {
        let Looker {
            seat: _,
            replica: _,
        } = self;
    }
}

impl<J: Naming> Model for Looker<J> {
    ghost use Rattle.cap_shared.specs.Following.{Follows};
    ghost use Rattle.cap_shared.specs.declared.history.Sitting.{Sitting};

    ghost Value = { Sitting };

    ghost view = { λ l. l.seat };

    ghost invariant = { λ l. Follows l.replica.log l.seat.past };
}

impl<J: Naming> Looker<J> {
    /// A replica, which has followed what its seat was noted.
    pub fn new(seat: Seat<J>, replica: Replica<J>) -> Looker<J>
        requires { Follows replica.log seat.past }
    {
        Looker { seat, replica }
    }

    /// Its cluster.
    pub fn cluster(&self) -> &Cluster<RESOURCES> {
        self.replica.cluster()
    }

    /// How many entries it has followed.
    pub fn followed(&self) -> usize {
        self.replica.followed()
    }

    /// Takes a piece of what is new, in one hold, and lets it go: how many entries it has. `None` if an allocation fails.
    pub fn look<H: Wait>(&mut self, rt: &H, shared: &Shared<J>) -> Option<u64> {
        look(rt, shared, &mut self.seat, &self.replica)
    }

    /// Takes a piece of what is new, in one hold, and makes it again: whether that was all. `None` if an allocation fails.
    pub fn take_piece<H: Wait>(&mut self, rt: &H, shared: &Shared<J>) -> Option<bool> {
        take_piece(rt, shared, &mut self.seat, &mut self.replica)
    }

    /// Takes all that is new, piece by piece, and makes it again. `None` if an allocation fails.
    pub fn catch_up<H: Wait>(&mut self, rt: &H, shared: &Shared<J>) -> Option<()> {
        for _ in rt.forever() {
            if self.take_piece(rt, shared)? {
                return Some(());
            }
        }
        unreachable!()
    }

    /// Closes the epoch, with the other seats: what is left of it, and the cluster of the replica. `None` if an allocation fails.
    pub fn close(self, shared: Shared<J>, others: Vec<Seat<J>>) -> Option<Both>
        requires { length others.items + 1 ≡ J.seats }
    {
        let Looker { seat, replica } = self;
        let mut seats = others;
        let Ok(()) = seats.push(seat) else {
            return None;
        };
        let closed = shared.close(seats);
        match replica.close(&closed) {
            Ok(own) => Some(Both { closed, own }),
            Err(_) => None,
        }
    }
}

/// What is left of an epoch, and the cluster of a replica.
#[derive(Drop)]
pub struct Both {
    pub closed: Closed,
    pub own: Cluster<RESOURCES>,
}

fn look<J: Naming, H: Wait>(
    rt: &H,
    shared: &Shared<J>,
    seat: &mut Seat<J>,
    replica: &Replica<J>,
) -> Option<u64>
    requires { Follows replica.now.log seat.old.past }
    ensures { Follows replica.now.log seat.new.past }
{
    match take_news(rt, shared, seat, replica) {
        Ok(piece) => Some(piece.news.count() as u64),
        Err(_) => None,
    }
}

fn take_piece<J: Naming, H: Wait>(
    rt: &H,
    shared: &Shared<J>,
    seat: &mut Seat<J>,
    replica: &mut Replica<J>,
) -> Option<bool>
    requires { Follows replica.old.log seat.old.past }
    ensures { Follows replica.new.log seat.new.past }
{
    let Ok(piece) = take_news(rt, shared, seat, replica) else {
        return None;
    };
    make_again(replica, piece)
}

/// Takes what is new to a replica, in a hold of its own. It stands apart, so that its instructions can be counted.
#[inline(never)]
fn take_news<J: Naming, H: Wait>(
    rt: &H,
    shared: &Shared<J>,
    seat: &mut Seat<J>,
    replica: &Replica<J>,
) -> Result<Piece, NoMemory>
    requires { Follows replica.now.log seat.old.past }
    ensures { MatchResult result
        (λ piece. IsNews J.opening replica.now.log seat.old seat.new piece.news piece.are_all)
        (λ _. seat.new ≡ seat.old) }
{
    shared.hold_to_schedule(rt).news(seat, replica)
}

/// Makes a piece of news again: whether that was all. It stands apart, so that its instructions can be counted. `None` if an allocation fails.
#[inline(never)]
fn make_again<J: Naming>(replica: &mut Replica<J>, piece: Piece) -> Option<bool>
    requires { LeadsOn J.opening replica.old.log piece.news }
    ensures { IsPrefix replica.new.log (replica.old.log ++ piece.news) }
{
    let Piece { news, are_all } = piece;
    match replica.catch_up(news) {
        Ok(()) => Some(are_all),
        Err(_) => None,
    }
}
