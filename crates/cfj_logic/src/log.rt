//! Logs of clauses.

ghost use Rattle.std.specs.Prelude.{◌≡◌, [], ◌∷◌, ◌++◌, IfOk, OnOk, OnErr};

use crate::clause::Clause;
use shared_list::Shared;
use std::alloc::{AllocError, Global};
use std::marker::Model;

/// The clauses of a log that others may have too.
///
/// Contracts see it as the list of its clauses.
#[derive(Debug, Drop)]
struct Stored {
    clauses: Vec<Clause>,
}

impl Model for Stored {
    ghost use Rattle.std.specs.Prelude.{List};
    ghost use Rattle.cfj_logic.specs.Sides.{Sides};

    ghost Value = { List Sides };

    ghost view = { λ s. s.clauses.items };
}

impl Stored {
    fn slice(&self) -> &[Clause]
        ensures { result.now ≡ self.now }
    {
        self.clauses.as_slice()
    }

    fn list(&self) -> Result<Vec<Clause>, AllocError>
        ensures { IfOk result (λ list. list.items ≡ self.now) }
    {
        self.clauses.clone()
    }
}

/// Where the clauses of a log are.
#[derive(Debug, Drop)]
enum Kept {
    /// In a list of its own.
    Own(Vec<Clause>),
    /// In one that others may have too.
    Shared(Shared<Stored>),
}

/// What a search has learned: clauses in the order in which they were found.
///
/// Contracts see it as the list of its clauses.
#[derive(Debug, Drop)]
pub struct Log {
    kept: Kept,
}

impl Model for Log {
    ghost use Rattle.std.specs.Prelude.{List};
    ghost use Rattle.cfj_logic.specs.Kept.{clauses_kept};
    ghost use Rattle.cfj_logic.specs.Sides.{Sides};

    ghost Value = { List Sides };

    ghost view = { λ l. clauses_kept l.kept };
}

impl Log {
    /// A log without clauses.
    pub fn new(alloc: Global) -> Log
        ensures { result ≡ [] }
    {
        Log {
            kept: Kept::Own(Vec::new(alloc)),
        }
    }

    /// Puts a clause at the end. After an error the log is as before.
    pub fn push(&mut self, clause: Clause) -> Result<(), AllocError>
        ensures ok { OnOk result (self.new ≡ self.old ++ clause ∷ []) }
        ensures err { OnErr result (self.new ≡ self.old) }
    {
        match &mut self.kept {
            Kept::Own(list) => Ok(list.push(clause)?),
            Kept::Shared(stored) => {
                let mut list = stored.get().list()?;
                list.push(clause)?;
                self.kept = Kept::Own(list);
                Ok(())
            }
        }
    }

    /// The clauses, in order.
    pub fn clauses(&self) -> &[Clause]
        ensures { result.now ≡ self.now }
    {
        match &self.kept {
            Kept::Own(list) => list.as_slice(),
            Kept::Shared(stored) => stored.get().slice(),
        }
    }

    /// The same log, whose copies share its clauses from now on.
    ///
    /// # Errors
    ///
    /// There is no memory for it.
    pub fn shared(self, alloc: Global) -> Result<Log, AllocError>
        ensures { IfOk result (λ l. l ≡ self) }
    {
        let kept = match self.kept {
            Kept::Own(clauses) => Kept::Shared(Shared::new(alloc, Stored { clauses })?),
            Kept::Shared(stored) => Kept::Shared(stored),
        };
        Ok(Log { kept })
    }

    /// A second log with these clauses, which it shares where they are shared.
    pub fn copy(&self) -> Result<Log, AllocError>
        ensures { IfOk result (λ l. l ≡ self.now) }
    {
        let kept = match &self.kept {
            Kept::Own(list) => Kept::Own(list.clone()?),
            Kept::Shared(stored) => Kept::Shared(stored.share()?),
        };
        Ok(Log { kept })
    }
}
