//! How much an entry runs, as counts that stop at the greatest `u64`.
ghost use Rattle.std.specs.Prelude.{◌≡◌};
ghost use Rattle.tw_frames.specs.Measures.{no_steps, in_turn, enclosed, under_if, one_more, capped};

/// How much an entry runs: the number of its statements, and how deep they are nested.
#[derive(Debug, Clone, Copy, PartialEq, Eq)]
pub struct Measured {
    /// The statements that run, also those of callees. A setup counts twice.
    pub statements: u64,
    /// The most blocks and bodies that are nested in one another, across calls.
    pub depth: u64,
    /// The most `if`s that are nested in one another, across calls.
    pub if_depth: u64,
}

impl Measured {
    /// Nothing runs.
    pub(crate) fn nothing() -> Measured
        ensures { result ≡ no_steps }
    {
        Measured {
            statements: 0,
            depth: 0,
            if_depth: 0,
        }
    }

    /// One part runs, and then another.
    pub(crate) fn then(self, rest: Measured) -> Measured
        ensures { result ≡ capped (in_turn self rest) }
    {
        Measured {
            statements: self.statements.saturating_add(rest.statements),
            depth: self.depth.max(rest.depth),
            if_depth: self.if_depth.max(rest.if_depth),
        }
    }

    /// The part is a block, or the body of a function.
    pub(crate) fn enclosed(self) -> Measured
        ensures { result ≡ capped (enclosed self) }
    {
        Measured {
            depth: self.depth.saturating_add(1),
            ..self
        }
    }

    /// The part is under an `if`.
    pub(crate) fn under_if(self) -> Measured
        ensures { result ≡ capped (under_if self) }
    {
        Measured {
            if_depth: self.if_depth.saturating_add(1),
            ..self
        }
    }

    /// A statement of these parts.
    pub(crate) fn one_more(self) -> Measured
        ensures { result ≡ capped (one_more self) }
    {
        Measured {
            statements: self.statements.saturating_add(1),
            ..self
        }
    }
}
