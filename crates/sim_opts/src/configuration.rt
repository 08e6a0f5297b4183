//! Reading a configuration line by line.
ghost use Rattle.std.specs.Prelude.{◌≡◌, ◌<◌, ◌≤◌, ◌^◌, ◌++◌, ◌∷◌, [], List, true, map, find, length, string_bytes, IfOk, OnOk};
ghost use Rattle.std.specs.List.{list_all};
ghost use Rattle.text_lines.specs.Lines.{is_allowed, words_of};
ghost use Rattle.sim_opts.specs.Table.{row_in};
ghost use Rattle.sim_opts.specs.Settings.{Setting as SettingSpec};
ghost use Rattle.sim_opts.specs.Kept.{setting_in};
ghost use Rattle.sim_opts.specs.Options.{said_in};
ghost use Rattle.sim_opts.specs.Configuration.{reasons, is_reason, some_value, values_have, option_has, configuration, with_configuration, Configures};
ghost use Rattle.sim_opts.specs.Lines.{numbers, times, IsOn, TakesLine, fault_at};

use crate::options::{Options, copied};
use crate::table::{Row, Slot, Tool, row_named};
use crate::values::{ValueWhy, value_fault};
use crate::words::Setting;
use ss_base::{AsmFault, OutOfMemory, TextWhy};
use std::alloc::Global;
use text_lines::{are_allowed, before_comment, next_line, next_word};

/// What stands on a line.
#[derive(Clone, Copy, Debug)]
enum OnLine<'a> {
    /// Nothing but blanks and a comment.
    Nothing,
    /// An option that may stand there.
    Sets(Setting<'a>),
    /// Something wrong.
    Wrong(TextWhy),
}

/// Why a line was not taken.
#[derive(Clone, Copy, Debug)]
enum LineStop {
    /// It is wrong.
    Wrong(TextWhy),
    /// A growth found no memory.
    NoMemory,
}

impl LineStop {
    /// The fault of a line.
    fn at(self, line: u32) -> AsmFault
        ensures { result ≡ fault_at line self }
    {
        match self {
            LineStop::NoMemory => AsmFault::OutOfMemory,
            LineStop::Wrong(why) => AsmFault::Bad { line, why },
        }
    }
}

/// How often a number stands among others.
fn times(number: u8, stood: &[u8]) -> usize
    ensures { result ≡ times number stood.now }
{
    let mut times: usize = 0;
    for other in stood {
        if *other == number {
            times += 1;
        }
    }
    times
}

/// Whether a value was found to be wrong for this reason.
fn is_reason(reason: ValueWhy, found: Option<ValueWhy>) -> bool
    ensures { result ≡ is_reason reason found }
{
    matches!(
        (reason, found),
        (ValueWhy::Number, Some(ValueWhy::Number))
            | (ValueWhy::Range, Some(ValueWhy::Range))
            | (ValueWhy::Form, Some(ValueWhy::Form))
    )
}

/// Whether one of the values is wrong for this reason.
fn some_value(reason: ValueWhy, slots: &[Slot], values: &[String]) -> bool
    ensures { result ≡ some_value reason slots.now (map string_bytes values.now) }
{
    for (place, slot) in slots.iter().enumerate() {
        if values.len() <= place {
            return false;
        }
        if is_reason(reason, value_fault(*slot, values[place].as_str())) {
            return true;
        }
    }
    false
}

/// Why these values are wrong, `None` exactly where they are right.
fn values_reason(slots: &[Slot], values: &[String]) -> Option<TextWhy>
    ensures { result ≡ find (values_have slots.now (map string_bytes values.now)) reasons }
{
    if values.len() < slots.len() {
        Some(TextWhy::Missing)
    } else if some_value(ValueWhy::Number, slots, values) {
        Some(TextWhy::Number)
    } else if some_value(ValueWhy::Range, slots, values) {
        Some(TextWhy::Range)
    } else if some_value(ValueWhy::Form, slots, values) {
        Some(TextWhy::Form)
    } else if slots.len() < values.len() {
        Some(TextWhy::Extra)
    } else {
        None
    }
}

/// Why an option that stood so often before is wrong, `None` exactly where it may stand.
fn option_reason(tool: Tool, before: usize, row: &Row, values: &[String]) -> Option<TextWhy>
    ensures { result ≡ find (option_has tool before (row_in row.now) (map string_bytes values.now)) reasons }
{
    let most = tool.most_of(row);
    if row.words_alone || most == 0 {
        Some(TextWhy::NotHere)
    } else if most as usize <= before {
        Some(TextWhy::Twice)
    } else {
        values_reason(row.slots, values)
    }
}

/// What the words of a line say, behind options with these numbers.
fn on_line<'a>(tool: Tool, stood: &[u8], words: &'a [String]) -> OnLine<'a>
    ensures { (before : List SettingSpec) → numbers before ≡ stood.now → IsOn tool before (map string_bytes words.now) result }
{
    let Some((word, values)) = words.split_first() else {
        return OnLine::Nothing;
    };
    let Some(option) = row_named(word.as_str()) else {
        return OnLine::Wrong(TextWhy::Option);
    };
    match option_reason(tool, times(option.number, stood), &option, values) {
        Some(why) => OnLine::Wrong(why),
        None => OnLine::Sets(Setting { option, values }),
    }
}

/// A word as a text of its own.
#[tactic(auto, using(crate::proofs::LineWords::allowed_utf8))]
fn text_of(alloc: Global, word: &[u8]) -> Result<String, OutOfMemory>
    requires { list_all is_allowed word.now ≡ true }
    ensures { IfOk result (λ s. string_bytes s ≡ word.now) }
{
    match str::from_utf8(word) {
        Ok(text) => copied(alloc, text),
        Err(_) => unreachable!(),
    }
}

/// The words of a line.
fn words_on(alloc: Global, line: &[u8]) -> Result<Vec<String>, OutOfMemory>
    requires { list_all is_allowed line.now ≡ true }
    ensures { IfOk result (λ words. map string_bytes words.items ≡ words_of line.now) }
{
    let mut words = Vec::new(alloc);
    let mut rest = before_comment(line);
    'words: while let Some((word, others)) = next_word(rest) {
        words.push(text_of(alloc, word)?)?;
        rest = others;
    }
    Ok(words)
}

/// Sets the field of an option, and notes its number.
fn take_setting(
    alloc: Global,
    setting: &Setting<'_>,
    stood: &mut Vec<u8>,
    o: &mut Options,
) -> Result<(), OutOfMemory>
    ensures said { OnOk result (said_in o.new ≡ with_configuration (said_in o.old) (setting_in setting.now ∷ [])) }
    ensures numbers { OnOk result (stood.new.items ≡ stood.old.items ++ (setting_in setting.now).option.number ∷ []) }
{
    stood.push(setting.option.number)?;
    o.configure(alloc, setting)
}

/// Takes in a line behind options with these numbers.
fn take_line(
    alloc: Global,
    line: &[u8],
    stood: &mut Vec<u8>,
    o: &mut Options,
) -> Result<(), LineStop>
    ensures { (before : List SettingSpec) → numbers before ≡ stood.old.items → TakesLine before line.now (said_in o.old) (said_in o.new) stood.new.items result }
{
    if !are_allowed(line) {
        return Err(LineStop::Wrong(TextWhy::Char));
    }
    let Ok(words) = words_on(alloc, line) else {
        return Err(LineStop::NoMemory);
    };
    match on_line(o.tool, stood.as_slice(), words.as_slice()) {
        OnLine::Nothing => Ok(()),
        OnLine::Wrong(why) => Err(LineStop::Wrong(why)),
        OnLine::Sets(setting) => match take_setting(alloc, &setting, stood, o) {
            Ok(()) => Ok(()),
            Err(_) => Err(LineStop::NoMemory),
        },
    }
}

/// Sets what a configuration says of options that did not stand among the words, or tells the first
/// wrong line, counted from 1, with the first of its reasons; then `o` is of no further use. It takes
/// memory in proportion to the text.
pub fn read_config(alloc: Global, text: &[u8], o: &mut Options) -> Result<(), AsmFault>
    requires { length text.now < 2 ^ 32 }
    ensures { Configures (configuration o.old.tool text.now) (said_in o.old) (said_in o.new) result }
{
    let mut stood = Vec::new(alloc);
    let mut rest = text;
    let mut number: u64 = 1;
    'lines: while rest.len() > 0 {
        let (line, others) = next_line(rest);
        match take_line(alloc, line, &mut stood, o) {
            Ok(()) => {}
            Err(stop) => return Err(stop.at(number as u32)),
        }
        rest = others;
        number += 1;
    }
    Ok(())
}
