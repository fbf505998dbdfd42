use crate::step::Step;
use lsv_base::NoMem;
use std::alloc::AllocError;
use std::marker::Model;
use thiserror::Error;

/// What words search for. Contracts see its steps.
#[derive(Drop)]
pub struct Expr {
    pub(crate) steps: Vec<Step>,
}

impl Model for Expr {
    ghost use Rattle.std.specs.Prelude.{List};
    ghost use Rattle.lsv_search.specs.declared.step.Step.{Step};

    ghost Value = { List Step };

    ghost view = { λ e. e.steps.items };
}

/// Why words are no expression.
#[derive(Clone, Copy, Debug, PartialEq, Eq, Error)]
pub enum ExprFault {
    /// The place of the first word that can't be taken, counted from 0, or the number of words if one is missing. It is
    /// 2^32 - 1 if the place is greater.
    #[error("bad expression at word {0}")]
    BadExpression(u32),
    #[error("out of memory")]
    NoMem,
}

impl From<NoMem> for ExprFault {
    ghost use Rattle.std.specs.Prelude.{◌≡◌};
    ghost use Rattle.lsv_search.specs.declared.expr.ExprFault.TheVariants as faults;

    ghost from_gives = { λ _ fault. fault ≡ faults.NoMem };

    fn from(_: NoMem) -> Self {
        ExprFault::NoMem
    }
}

/// Why a part of an expression isn't read.
#[derive(Clone, Copy, Debug, PartialEq, Eq)]
pub enum Stopped {
    /// At this word, or after the last one.
    At(usize),
    NoMem,
}

impl From<NoMem> for Stopped {
    ghost use Rattle.std.specs.Prelude.{◌≡◌};
    ghost use Rattle.lsv_search.specs.declared.expr.Stopped.TheVariants as stopped;

    ghost from_gives = { λ _ fault. fault ≡ stopped.NoMem };

    fn from(_: NoMem) -> Self {
        Stopped::NoMem
    }
}

impl From<AllocError> for Stopped {
    ghost use Rattle.std.specs.Prelude.{◌≡◌};
    ghost use Rattle.lsv_search.specs.declared.expr.Stopped.TheVariants as stopped;

    ghost from_gives = { λ _ fault. fault ≡ stopped.NoMem };

    fn from(_: AllocError) -> Self {
        Stopped::NoMem
    }
}
