//! An application that waits for containers, by reference (`Waiting`).
ghost use Rattle.std.specs.Prelude.{◌≡◌};

use crate::app::App;
use std::marker::Model;

/// An application that waits for containers: its master has registered, and it has asks.
#[derive(Drop)]
pub struct Waiting<'a, const K: usize> {
    app: &'a App<K>,
}

impl<'a, const K: usize> Model for Waiting<'a, K> {
    ghost use Rattle.cap_asks.specs.Accounts.{HeldApp};

    ghost Value = { HeldApp };

    ghost view = { λ w. w.app.now };
}

impl<'a, const K: usize> Waiting<'a, K> {
    /// One that waits.
    pub(crate) fn new(app: &'a App<K>) -> Waiting<'a, K>
        ensures { result ≡ app.now }
    {
        Waiting { app }
    }

    /// The application.
    pub fn app(&self) -> &'a App<K>
        ensures { result.now ≡ self.now }
    {
        self.app
    }
}
