//! How many calls, grants and reservations a file has (`Counts`).

/// How many calls, grants and reservations were played.
#[derive(Clone, Copy, Debug, PartialEq, Eq)]
pub(crate) struct Counts {
    pub calls: u64,
    pub grants: u64,
    pub reservations: u64,
}

impl Counts {
    /// Nothing yet.
    pub(crate) fn new() -> Counts {
        Counts {
            calls: 0,
            grants: 0,
            reservations: 0,
        }
    }

    /// The same with what one more line adds.
    pub(crate) fn with(self, line: &[u8]) -> Counts {
        let Counts {
            calls,
            grants,
            reservations,
        } = self;
        Counts {
            calls: calls.saturating_add(u64::from(line.starts_with(b"call "))),
            grants: grants.saturating_add(u64::from(line.starts_with(b"grant "))),
            reservations: reservations.saturating_add(u64::from(line.starts_with(b"reserve "))),
        }
    }

    /// How many entries that are.
    pub(crate) fn entries(self) -> u64 {
        self.calls
            .saturating_add(self.grants)
            .saturating_add(self.reservations)
    }
}
