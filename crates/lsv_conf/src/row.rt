ghost use Rattle.std.specs.Prelude.{◌≡◌, ◌&&◌, None, MatchOption};
ghost use Rattle.std.specs.Str.{str_eq_ignore_ascii_case};
ghost use Rattle.lsv_conf.specs.Inner.{HasNames, values_of};
ghost use Rattle.lsv_conf.specs.Table.{row_of};

/// The keys that may be set.
#[derive(Clone, Copy, Debug, PartialEq, Eq)]
pub enum Key {
    ListenAddress,
    RelayHost,
    StoreFirst,
    IologDir,
    IologFile,
    LogPasswords,
    Prompts,
    LogFormat,
    LogExit,
    Path,
}

/// The values that a key takes.
#[derive(Clone, Copy, Debug, PartialEq, Eq)]
pub enum Values {
    /// An address to listen at, whose host may be `*`.
    Listening,
    /// An address of another server.
    Upstream,
    /// true, yes, on, 1, false, no, off, 0.
    Truth,
    /// One byte or more.
    Path,
    /// `%{seq}` alone.
    Sequence,
    /// sudo, json.
    Format,
    /// One to sixteen texts of 1 to 64 bytes with commas between them.
    Texts,
}

impl Key {
    /// The values that it takes.
    pub fn values(self) -> Values
        ensures { result ≡ values_of self }
    {
        match self {
            Key::ListenAddress => Values::Listening,
            Key::RelayHost => Values::Upstream,
            Key::StoreFirst | Key::LogPasswords | Key::LogExit => Values::Truth,
            Key::IologDir | Key::Path => Values::Path,
            Key::IologFile => Values::Sequence,
            Key::Prompts => Values::Texts,
            Key::LogFormat => Values::Format,
        }
    }
}

/// Whether the names of a section and a key are these, without regard to the case of ASCII letters.
fn has_names(section: &[u8], key: &[u8], names: (&str, &str)) -> bool
    ensures { result ≡ (str_eq_ignore_ascii_case section.now names.entry.0.now && str_eq_ignore_ascii_case key.now names.entry.1.now) }
{
    section.eq_ignore_ascii_case(names.0.as_bytes()) && key.eq_ignore_ascii_case(names.1.as_bytes())
}

/// The key of these names, if it is known.
pub fn key_of(section: &[u8], key: &[u8]) -> Option<Key>
    ensures { MatchOption result (row_of section.now key.now ≡ None) (λ k. HasNames k section.now key.now) }
{
    if has_names(section, key, ("server", "listen_address")) {
        return Some(Key::ListenAddress);
    }
    if has_names(section, key, ("relay", "relay_host")) {
        return Some(Key::RelayHost);
    }
    if has_names(section, key, ("relay", "store_first")) {
        return Some(Key::StoreFirst);
    }
    if has_names(section, key, ("iolog", "iolog_dir")) {
        return Some(Key::IologDir);
    }
    if has_names(section, key, ("iolog", "iolog_file")) {
        return Some(Key::IologFile);
    }
    if has_names(section, key, ("iolog", "log_passwords")) {
        return Some(Key::LogPasswords);
    }
    if has_names(section, key, ("iolog", "prompts")) {
        return Some(Key::Prompts);
    }
    if has_names(section, key, ("eventlog", "log_format")) {
        return Some(Key::LogFormat);
    }
    if has_names(section, key, ("eventlog", "log_exit")) {
        return Some(Key::LogExit);
    }
    if has_names(section, key, ("logfile", "path")) {
        return Some(Key::Path);
    }
    None
}
