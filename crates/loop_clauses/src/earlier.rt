//! The clauses before a clause of the same directive.

ghost use Rattle.std.specs.Prelude.{◌≡◌};
ghost use Rattle.c_tree.specs.PlacedOf.{placed_kind};

use c_tree::tree::ClauseKind;

/// Which of the clauses that exclude others stand before.
#[derive(Clone, Copy)]
pub struct Earlier {
    pub sizes: bool,
    pub permutation: bool,
    pub counts: bool,
    pub range: bool,
    /// `full` or `partial`.
    pub unroll: bool,
}

impl Earlier {
    ghost use Rattle.loop_clauses.specs.Earlier.{no_clause, excludes, with_clause};

    pub fn none() -> Earlier
        ensures { result ≡ no_clause }
    {
        Earlier {
            sizes: false,
            permutation: false,
            counts: false,
            range: false,
            unroll: false,
        }
    }

    /// Whether one of the clauses before excludes this one.
    pub fn excludes(self, clause: &ClauseKind) -> bool
        ensures { result ≡ excludes self (placed_kind clause.now) }
    {
        match clause {
            ClauseKind::Sizes(_) => self.sizes,
            ClauseKind::Permutation(_) => self.permutation,
            ClauseKind::Counts(_) => self.counts,
            ClauseKind::LoopRange(_, _) => self.range,
            ClauseKind::Full => self.unroll,
            ClauseKind::Partial(_) => self.unroll,
            ClauseKind::Apply { .. } => false,
        }
    }

    /// These clauses and this one.
    pub fn with(self, clause: &ClauseKind) -> Earlier
        ensures { result ≡ with_clause (placed_kind clause.now) self }
    {
        let mut all = self;
        match clause {
            ClauseKind::Sizes(_) => all.sizes = true,
            ClauseKind::Permutation(_) => all.permutation = true,
            ClauseKind::Counts(_) => all.counts = true,
            ClauseKind::LoopRange(_, _) => all.range = true,
            ClauseKind::Full => all.unroll = true,
            ClauseKind::Partial(_) => all.unroll = true,
            ClauseKind::Apply { .. } => {}
        }
        all
    }
}
