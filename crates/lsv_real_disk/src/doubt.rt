// Paths that may not be meant as they stand.
ghost use Rattle.std.specs.Prelude.{◌≡◌};
ghost use Rattle.lsv_real_disk.specs.Doubts.{IsDoubt};

/// Why a path may not be meant as it stands.
#[derive(Clone, Copy, Debug, PartialEq, Eq)]
pub enum Doubt {
    /// It has a quote.
    Quote,
    /// It has an escape, as sudo's own server replaces them.
    Escape,
    /// It doesn't begin with a slash.
    Relative,
}

impl Doubt {
    /// What is said of it.
    pub fn text(self) -> &'static str {
        match self {
            Doubt::Quote => "quotes are part of the name: leave them out if they aren't meant",
            Doubt::Escape =>
                "escapes such as %{user} aren't replaced: this is the name as it stands",
            Doubt::Relative =>
                "it is below the folder in which the server was started: let it begin with /",
        }
    }
}

/// The first of the doubts about a path that is set.
pub fn doubt_of(path: &str) -> Option<Doubt>
    ensures { IsDoubt path.now result }
{
    if path.contains('"') {
        Some(Doubt::Quote)
    } else if path.contains("%{") {
        Some(Doubt::Escape)
    } else if !path.starts_with('/') {
        Some(Doubt::Relative)
    } else {
        None
    }
}
