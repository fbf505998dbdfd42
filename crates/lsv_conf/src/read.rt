ghost use Rattle.std.specs.Prelude.{◌≡◌, ◌≤◌, ℕ, List, [], ◌∷◌, ◌++◌, None, Some, option_map, IfOk, OnOk};
ghost use Rattle.lsv_conf.specs.Inner.{at, placed_line, placed_setting, said, shown};
ghost use Rattle.lsv_conf.specs.Lines.{Placed, first_refused, line_of, lines_of, section_behind};
ghost use Rattle.lsv_conf.specs.Lines as lines;
ghost use Rattle.lsv_conf.specs.Refusals.{lines_in, refusal, refusal_of, refused_lines};
ghost use Rattle.lsv_conf.specs.Settings.{settings_in, settings_of, told};
ghost use Rattle.lsv_conf.specs.declared.conf.ConfFault.TheVariants as faults;
ghost use Rattle.lsv_conf.specs.declared.refused.Refusals.{Refusals};

use crate::draft::{Draft, SetFault};
use crate::line::{Line, line_of};
use crate::refused::{Refused, WrongValue, add};
use crate::row::key_of;
use crate::text::cut;
use crate::{Conf, ConfFault};
use lsv_base::{Bytes, NoMem};
use std::alloc::Global;
use std::str;

impl From<NoMem> for ConfFault {
    ghost from_gives = { λ _ fault. fault ≡ faults.NoMem };

    fn from(_: NoMem) -> Self {
        ConfFault::NoMem
    }
}

/// Takes in a setting, or answers why it is refused.
fn take_setting(
    draft: &mut Draft,
    alloc: Global,
    number: u32,
    section: &[u8],
    key: &[u8],
    value: &[u8],
) -> Result<Option<Refused>, NoMem>
    ensures refused { IfOk result (λ why. why ≡ refusal_of (Some section.now) (lines.Setting key.now value.now)) }
    ensures settings { result ≡ Ok None → (before : List Placed) (n : ℕ) → told n ≡ number → shown draft.old ≡ settings_of before → shown draft.new ≡ settings_of (before ++ placed_setting n section.now key.now value.now ∷ []) }
{
    let Some(known) = key_of(section, key) else {
        draft.note(alloc, number, key)?;
        return Ok(None);
    };
    match draft.set(alloc, known, value) {
        Ok(()) => Ok(None),
        Err(SetFault::Refused) => Ok(Some(Refused::Value(WrongValue {
            key: Bytes::of(alloc, key)?,
            value: Bytes::of(alloc, value)?,
            takes: known.values(),
        }))),
        Err(SetFault::NoMem) => Err(NoMem),
    }
}

/// Takes in a line of text, or answers why it is refused.
fn take_text(
    draft: &mut Draft,
    alloc: Global,
    number: u32,
    section: Option<&[u8]>,
    line: Line<'_>,
) -> Result<Option<Refused>, NoMem>
    ensures refused { IfOk result (λ why. why ≡ refusal_of (option_map (λ name. name.now) section.entry) (said line.entry)) }
    ensures settings { result ≡ Ok None → (before : List Placed) (n : ℕ) → told n ≡ number → shown draft.old ≡ settings_of before → shown draft.new ≡ settings_of (before ++ placed_line n (option_map (λ name. name.now) section.entry) (said line.entry) ∷ []) }
{
    match line {
        Line::Empty => Ok(None),
        Line::Section(_) => Ok(None),
        Line::Bad => Ok(Some(Refused::NoForm)),
        Line::Setting(key, value) => match section {
            None => Ok(Some(Refused::NoSection)),
            Some(name) => take_setting(draft, alloc, number, name, key, value),
        },
    }
}

/// Takes in a line, or answers why it is refused.
fn take_line(
    draft: &mut Draft,
    alloc: Global,
    number: u32,
    section: Option<&[u8]>,
    bytes: &[u8],
) -> Result<Option<Refused>, NoMem>
    ensures refused { IfOk result (λ why. why ≡ refusal (option_map (λ name. name.now) section.entry) bytes.now) }
    ensures settings { result ≡ Ok None → (before : List Placed) (n : ℕ) → told n ≡ number → shown draft.old ≡ settings_of before → shown draft.new ≡ settings_of (before ++ at n (option_map (λ name. name.now) section.entry) bytes.now ∷ []) }
{
    let Ok(_) = str::from_utf8(bytes) else {
        return Ok(Some(Refused::NotUtf8));
    };
    take_text(draft, alloc, number, section, line_of(bytes))
}

/// The section in which the line after this one stands.
fn section_after<'t>(section: Option<&'t [u8]>, bytes: &'t [u8]) -> Option<&'t [u8]>
    ensures { option_map (λ name. name.now) result ≡ section_behind (option_map (λ name. name.now) section.entry) (line_of bytes.now) }
{
    match line_of(bytes) {
        Line::Section(name) => Some(name),
        _ => section,
    }
}

/// Reads a settings file in the form of sudo_logsrvd.conf(5). Of a key that comes again the last one counts. If a line is
/// refused, all refused lines are answered, each with the reason.
pub fn read_conf(alloc: Global, text: &[u8]) -> Result<Conf, ConfFault>
    ensures settings { IfOk result (λ conf. settings_in conf ≡ settings_of (lines_of text.now)) }
    ensures none_refused { OnOk result (first_refused (lines_of text.now) ≡ None) }
    ensures reasons { (refused : Refusals) → result ≡ Err (ConfFault.Refused refused) → lines_in refused ≡ refused_lines text.now }
    ensures refused { (refused : Refusals) → result ≡ Err (ConfFault.Refused refused) → option_map told (first_refused (lines_of text.now)) ≡ Some refused.first.line }
    ensures counted { (refused : Refusals) → result ≡ Err (ConfFault.Refused refused) → 1 ≤ refused.first.line }
{
    let mut draft = Draft::defaults(alloc)?;
    let mut refused = None;
    let mut section = None;
    let mut number = 1u32;
    let mut rest = Some(text);
    while let Some(bytes) = rest {
        let (line, more) = cut(b'\n', bytes);
        let why = take_line(&mut draft, alloc, number, section, line)?;
        add(&mut refused, alloc, number, why)?;
        section = section_after(section, line);
        number = number.saturating_add(1);
        rest = more;
    }
    match refused {
        None => Ok(draft.finish()),
        Some(refused) => Err(ConfFault::Refused(refused)),
    }
}
