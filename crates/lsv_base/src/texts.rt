ghost use Rattle.std.specs.Prelude.{◌≡◌, ℕ, List, Option, IfOk, IsErrOf};
ghost use Rattle.lsv_base.specs.Outside.{HasCause};

use crate::{Bytes, NoMem};
use std::alloc::Global;
use thiserror::Error;

/// Why a text couldn't be read.
#[derive(Clone, Copy, Debug, PartialEq, Eq, Error)]
pub enum TextFault {
    #[error("a reading of a text failed")]
    Failed,
    #[error("out of memory")]
    NoMem,
}

impl From<NoMem> for TextFault {
    ghost use Rattle.lsv_base.specs.declared.texts.TextFault.{TextFault};

    ghost from_gives = { λ _ fault. fault ≡ TextFault.NoMem };

    fn from(_: NoMem) -> Self {
        TextFault::NoMem
    }
}

/// Where whole texts are read, as a settings file.
pub trait Texts {
    /// Whether this type tells its content: what it reads is promised where it does.
    ghost tells: { Type 0 };

    /// The text at a path, None where there is none.
    ghost texts: { Self → List ℕ → Option (List ℕ) };

    /// How often a reading has failed.
    ghost faults: { Self → ℕ };

    /// The text at this path, None where there is no such file.
    fn text(&mut self, alloc: Global, path: &str) -> Result<Option<Bytes>, TextFault>
        ensures text { tells → IfOk result (λ t. t ≡ texts self.old path.now) }
        ensures same { tells → (p : List ℕ) → texts self.new p ≡ texts self.old p }
        ensures cause { HasCause (IsErrOf result TextFault.Failed) (faults self.old) (faults self.new) };
}
