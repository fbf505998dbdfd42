ghost use Rattle.std.specs.Prelude.{◌≡◌, [], ◌∷◌, ◌++◌, true, false, ◌&&◌, IfOk, OnOk};
ghost use Rattle.lsv_conf.specs.declared.draft.SetFault.TheVariants as faults;
ghost use Rattle.lsv_conf.specs.Inner.{AreTexts, nothing_given, shown, values_of, with_value};
ghost use Rattle.lsv_conf.specs.Settings.{settings_by, settings_in};
ghost use Rattle.lsv_conf.specs.Values.{is_address, takes, with_port};
ghost use Rattle.lsv_conf.specs.Texts.{is_empty};

use crate::address::{is_address, is_any_host, with_port};
use crate::row::Key;
use crate::value::{are_prompts, kind_of, prompts_of, truth_of};
use crate::{Conf, Kind, Note};
use lsv_base::{Bytes, List, NoMem};
use std::alloc::Global;

/// The settings while a file is read.
#[derive(Debug, Drop)]
pub struct Draft {
    pub listen: Bytes,
    pub relay_host: Option<Bytes>,
    pub store_first: bool,
    pub iolog_dir: Bytes,
    pub log_passwords: bool,
    pub format: Kind,
    pub log_exit: bool,
    pub path: Bytes,
    pub notes: List<Note>,
    pub prompts: List<Bytes>,
}

/// Why a value was not taken.
#[derive(Clone, Copy, Debug)]
pub enum SetFault {
    Refused,
    NoMem,
}

impl From<NoMem> for SetFault {
    ghost from_gives = { λ _ fault. fault ≡ faults.NoMem };

    fn from(_: NoMem) -> Self {
        SetFault::NoMem
    }
}

/// The address that a value is.
fn address_in(alloc: Global, value: &[u8]) -> Result<Bytes, SetFault>
    ensures ok { IfOk result (λ address. (is_address value.now ≡ true) × (address ≡ with_port value.now)) }
    ensures refused { result ≡ Err SetFault.Refused → is_address value.now ≡ false }
{
    if !is_address(value) {
        return Err(SetFault::Refused);
    }
    Ok(with_port(alloc, value)?)
}

/// The path that a value is.
fn path_in(alloc: Global, value: &[u8]) -> Result<Bytes, SetFault>
    ensures ok { IfOk result (λ path. (is_empty value.now ≡ false) × (path ≡ value.now)) }
    ensures refused { result ≡ Err SetFault.Refused → is_empty value.now ≡ true }
{
    if value.is_empty() {
        return Err(SetFault::Refused);
    }
    Ok(Bytes::of(alloc, value)?)
}

impl Draft {
    /// The settings where no file says otherwise.
    pub fn defaults(alloc: Global) -> Result<Self, NoMem>
        ensures { IfOk result (λ draft. shown draft ≡ settings_by nothing_given []) }
    {
        Ok(Draft {
            listen: Bytes::of(alloc, b"*:30343")?,
            relay_host: None,
            store_first: false,
            iolog_dir: Bytes::of(alloc, b"/var/log/sudo-io")?,
            log_passwords: true,
            format: Kind::Sudo,
            log_exit: false,
            path: Bytes::of(alloc, b"/var/log/sudo.log")?,
            notes: List::new(alloc),
            prompts: prompts_of(alloc, b"assword:,assword for")?,
        })
    }

    /// Gives a key this value.
    pub fn set(&mut self, alloc: Global, key: Key, value: &[u8]) -> Result<(), SetFault>
        ensures taken { OnOk result (takes (values_of key) value.now ≡ true) }
        ensures set { OnOk result (shown self.new ≡ with_value key value.now (shown self.old)) }
        ensures refused { result ≡ Err SetFault.Refused → takes (values_of key) value.now ≡ false }
    {
        match key {
            Key::ListenAddress => self.listen = address_in(alloc, value)?,
            Key::RelayHost => {
                if is_any_host(value) {
                    return Err(SetFault::Refused);
                }
                self.relay_host = Some(address_in(alloc, value)?);
            }
            Key::StoreFirst => self.store_first = truth_of(value).ok_or(SetFault::Refused)?,
            Key::IologDir => self.iolog_dir = path_in(alloc, value)?,
            Key::IologFile => {
                if value != b"%{seq}".as_slice() {
                    return Err(SetFault::Refused);
                }
            }
            Key::LogPasswords => self.log_passwords = truth_of(value).ok_or(SetFault::Refused)?,
            Key::Prompts => {
                let prompts = prompts_of(alloc, value)?;
                if !are_prompts(prompts.as_slice()) {
                    return Err(SetFault::Refused);
                }
                self.prompts = prompts;
            }
            Key::LogFormat => self.format = kind_of(value).ok_or(SetFault::Refused)?,
            Key::LogExit => self.log_exit = truth_of(value).ok_or(SetFault::Refused)?,
            Key::Path => self.path = path_in(alloc, value)?,
        }
        Ok(())
    }

    /// Notes a key that is passed over.
    pub fn note(&mut self, alloc: Global, line: u32, key: &[u8]) -> Result<(), NoMem>
        ensures { OnOk result (shown self.new ≡ record (shown self.old) { notes = self.old.notes ++ (record { line = line; key = key.now }) ∷ [] }) }
    {
        let note = Note {
            line,
            key: Bytes::of(alloc, key)?,
        };
        match self.notes.push(note) {
            Ok(()) => Ok(()),
            Err(_) => Err(NoMem),
        }
    }

    /// The settings, once the file is read.
    pub fn finish(self) -> Conf
        requires { AreTexts (shown self) }
        ensures { settings_in result ≡ shown self }
    {
        Conf {
            listen: self.listen,
            relay_host: self.relay_host,
            store_first: self.store_first,
            iolog_dir: self.iolog_dir,
            log_passwords: self.log_passwords,
            format: self.format,
            log_exit: self.log_exit,
            path: self.path,
            notes: self.notes,
            prompts: self.prompts,
        }
    }
}
