ghost use Rattle.std.specs.Prelude.{◌≡◌};
ghost use Rattle.lsv_search.specs.Names.{name_in, text_of};

/// The names of tests.
#[derive(Clone, Copy, Debug, PartialEq, Eq)]
pub enum Name {
    /// The command and its arguments have a match of a pattern.
    Command,
    /// The folder in which the command was asked for.
    Cwd,
    /// It was asked for at this moment or later.
    FromDate,
    /// The group as which the command ran.
    Group,
    /// The machine on which it was asked for.
    Host,
    /// The user as whom the command ran.
    Runas,
    /// It was asked for at this moment or earlier.
    ToDate,
    /// The terminal.
    Tty,
    /// The user who asked for it.
    User,
}

/// All of them.
const ALL: [Name; 9] = [
    Name::Command,
    Name::Cwd,
    Name::FromDate,
    Name::Group,
    Name::Host,
    Name::Runas,
    Name::ToDate,
    Name::Tty,
    Name::User,
];

impl Name {
    /// Its text.
    pub fn text(self) -> &'static [u8]
        ensures { result.now ≡ text_of self }
    {
        match self {
            Name::Command => b"command",
            Name::Cwd => b"cwd",
            Name::FromDate => b"fromdate",
            Name::Group => b"group",
            Name::Host => b"host",
            Name::Runas => b"runas",
            Name::ToDate => b"todate",
            Name::Tty => b"tty",
            Name::User => b"user",
        }
    }
}

/// The name that a word stands for: the only one that begins with it.
pub fn name_in(word: &[u8]) -> Option<Name>
    ensures { result ≡ name_in word.now }
{
    let mut found = None;
    for name in ALL {
        if name.text().starts_with(word) {
            if found.is_some() {
                return None;
            }
            found = Some(name);
        }
    }
    found
}
