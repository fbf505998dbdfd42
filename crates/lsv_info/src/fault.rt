ghost use Rattle.std.specs.Prelude.{◌≡◌};
ghost use Rattle.lsv_info.specs.declared.fault.InfoFault.TheVariants as faults;

use lsv_base::{Bytes, NoMem};
use std::alloc::{AllocError, AllocFailed};
use std::str::from_utf8;
use thiserror::Error;

/// Why bytes are no head or no exit.
#[derive(Debug, Drop, Error)]
pub enum InfoFault {
    /// They are no JSON: no UTF-8, no text of RFC 8259, nested deeper than 127, or with a number that is too large
    /// for a float.
    #[error("no JSON")]
    NotJson,
    /// The member with this key is missing, or has another form than it is to have: the first such one.
    #[error("the member `{}` is missing or has another form", text_of(.0))]
    NotInfo(Bytes),
    #[error("out of memory")]
    NoMem,
}

/// A key, to be shown. Those that are at fault come from JSON, so they are UTF-8.
fn text_of(key: &Bytes) -> &str {
    from_utf8(key.as_slice()).unwrap_or("?")
}

impl From<NoMem> for InfoFault {
    ghost from_gives = { λ _ e. e ≡ faults.NoMem };

    fn from(_: NoMem) -> Self {
        InfoFault::NoMem
    }
}

impl From<AllocError> for InfoFault {
    ghost from_gives = { λ _ e. e ≡ faults.NoMem };

    fn from(_: AllocError) -> Self {
        InfoFault::NoMem
    }
}

impl<T: Drop> From<AllocFailed<T>> for InfoFault {
    ghost from_gives = { λ _ e. e ≡ faults.NoMem };

    fn from(_: AllocFailed<T>) -> Self {
        InfoFault::NoMem
    }
}
