//! What words ask for, or the first wrong word.
ghost use Rattle.std.specs.Prelude.{◌≡◌, ◌+◌, ◌<◌, ◌≤◌, ◌^◌, [], map, length, string_bytes, IfSome, None, Ok};
ghost use Rattle.sim_opts.specs.Table.{row_in};
ghost use Rattle.sim_opts.specs.Settings.{count, is_given};
ghost use Rattle.sim_opts.specs.Words.{reason_of, values_fault, row_fault, judged, names_fault, start_fault, run_fault, out_fault, operands_fault, walk, ended, read};
ghost use Rattle.sim_opts.specs.Kept.{setting_in, walked_in, judged_in, placed, IsAmong, Walks, IsWithin, Reads};

use crate::table::{Row, Slot, Tool, row_named, tool_named};
use crate::values::{ValueWhy, value_fault};
use crate::word::{begins_with_dash, fits_start_block};
use std::alloc::Global;

/// Why words are wrong at their first wrong place. Of two reasons at one place, only a missing object
/// and a missing `-o` can stand together, and the object's is told.
#[derive(Clone, Copy, Debug, PartialEq, Eq)]
pub enum WordWhy {
    /// There is no word.
    NoCommand,
    /// The first word is no command.
    Command,
    /// An option is unknown.
    Option,
    /// An option is another command's.
    NotHere,
    /// An option stands more often than it may.
    Twice,
    /// A value is missing at the end, or an option that is needed.
    Missing,
    /// A value that has to be a number is none.
    Number,
    /// A number is outside its limits.
    Range,
    /// A value has another shape, or a file has no name.
    Form,
    /// There is no object or source at the end.
    NoObject,
    /// A word stands behind the last one that may.
    Extra,
    /// The start block of the object and its arguments is too long.
    TooLong,
    /// Two files that are written have one name. Reading words never tells it: `clash` does, of what
    /// words and a configuration say together.
    Clash,
}

/// A place among words, and why the word there is wrong.
#[derive(Clone, Copy, Debug)]
pub(crate) struct Wrong {
    /// The place.
    pub at: usize,
    /// The reason.
    pub why: WordWhy,
}

/// Why words were not read.
#[derive(Clone, Copy, Debug)]
pub(crate) enum Stop {
    /// One of them is wrong.
    Wrong(Wrong),
    /// A growth found no memory.
    NoMemory,
}

/// An option with its values.
#[derive(Clone, Copy, Debug)]
pub(crate) struct Setting<'a> {
    /// The option.
    pub option: Row,
    /// Its values.
    pub values: &'a [String],
}

/// Options, and what stands behind them.
#[derive(Debug, Drop)]
pub(crate) struct Walked<'a> {
    /// The options in their order.
    pub settings: Vec<Setting<'a>>,
    /// The place behind them.
    pub at: usize,
    /// The words from there on.
    pub rest: &'a [String],
}

/// What words ask for.
#[derive(Debug, Drop)]
pub(crate) struct Reading<'a> {
    /// The command.
    pub tool: Tool,
    /// Its options in their order.
    pub settings: Vec<Setting<'a>>,
    /// The object and what stands behind it.
    pub operands: &'a [String],
}

/// How often an option stands.
fn count(number: u8, settings: &[Setting<'_>]) -> usize
    ensures { result ≡ count number (map setting_in settings.now) }
{
    let mut times: usize = 0;
    for setting in settings {
        if setting.option.number == number {
            times += 1;
        }
    }
    times
}

/// Whether an option stands at all.
pub(crate) fn is_given(number: u8, settings: &[Setting<'_>]) -> bool
    ensures { result ≡ is_given number (map setting_in settings.now) }
{
    count(number, settings) >= 1
}

/// The reason as one of words.
fn reason_of(why: ValueWhy) -> WordWhy
    ensures { result ≡ reason_of why }
{
    match why {
        ValueWhy::Number => WordWhy::Number,
        ValueWhy::Range => WordWhy::Range,
        ValueWhy::Form => WordWhy::Form,
    }
}

/// The first value that is wrong or missing, out of the words behind an option.
#[tactic(auto, using(crate::proofs::Judged::values_enough, crate::proofs::Judged::values_inside))]
fn values_fault(slots: &[Slot], words: &[String]) -> Option<Wrong>
    ensures value { result ≡ values_fault slots.now (map string_bytes words.now) }
    ensures enough { result ≡ None → length slots.now ≤ length words.now }
    ensures inside { IfSome result (λ w. w.at ≤ length words.now) }
{
    for (place, slot) in slots.iter().enumerate() {
        if words.len() <= place {
            return Some(Wrong {
                at: place,
                why: WordWhy::Missing,
            });
        }
        if let Some(why) = value_fault(*slot, words[place].as_str()) {
            return Some(Wrong {
                at: place,
                why: reason_of(why),
            });
        }
    }
    None
}

/// Why an option cannot stand behind those before it, `None` exactly where it can.
fn row_fault(tool: Tool, before: &[Setting<'_>], row: &Row) -> Option<WordWhy>
    ensures { result ≡ row_fault tool (map setting_in before.now) (row_in row.now) }
{
    let most = tool.most_of(row);
    if most == 0 {
        Some(WordWhy::NotHere)
    } else if most as usize <= count(row.number, before) {
        Some(WordWhy::Twice)
    } else {
        None
    }
}

/// The option that a word at a place is, with its values out of the words behind it, or what is
/// wrong there.
fn judged<'a>(
    tool: Tool,
    before: &[Setting<'_>],
    at: usize,
    word: &str,
    behind: &'a [String],
) -> Result<Setting<'a>, Wrong>
    requires { at + 1 + length behind.now < 2 ^ 64 }
    ensures value { judged_in result ≡ placed at (judged tool (map setting_in before.now) word.now (map string_bytes behind.now)) }
    ensures among { IsAmong (length behind.now) result }
{
    let Some(option) = row_named(word) else {
        return Err(Wrong {
            at,
            why: WordWhy::Option,
        });
    };
    if let Some(why) = row_fault(tool, before, &option) {
        return Err(Wrong { at, why });
    }
    match values_fault(option.slots, behind) {
        Some(wrong) => Err(Wrong {
            at: at + 1 + wrong.at,
            why: wrong.why,
        }),
        None => Ok(Setting {
            option,
            values: &behind[..option.slots.len()],
        }),
    }
}

/// What is wrong with words that have to be so many names.
fn names_fault(names: usize, operands: &[String]) -> Option<Wrong>
    ensures { result ≡ names_fault names (map string_bytes operands.now) }
{
    for place in 0..names {
        if operands.len() <= place {
            return Some(Wrong {
                at: place,
                why: WordWhy::NoObject,
            });
        }
        if operands[place].as_str().is_empty() {
            return Some(Wrong {
                at: place,
                why: WordWhy::Form,
            });
        }
    }
    if operands.len() <= names {
        None
    } else {
        Some(Wrong {
            at: names,
            why: WordWhy::Extra,
        })
    }
}

/// What is wrong with an object and its arguments.
fn start_fault(operands: &[String]) -> Option<Wrong>
    ensures { result ≡ start_fault (map string_bytes operands.now) }
{
    let why = if operands.is_empty() {
        WordWhy::NoObject
    } else if operands[0].is_empty() {
        WordWhy::Form
    } else if !fits_start_block(operands) {
        WordWhy::TooLong
    } else {
        return None;
    };
    Some(Wrong { at: 0, why })
}

/// What is wrong with the object of a run and its arguments: with a restart it stands alone.
fn run_fault(settings: &[Setting<'_>], operands: &[String]) -> Option<Wrong>
    ensures { result ≡ run_fault (map setting_in settings.now) (map string_bytes operands.now) }
{
    if is_given(2, settings) {
        names_fault(1, operands)
    } else {
        start_fault(operands)
    }
}

/// What is wrong with a recording that has no file for its trace.
fn out_fault(settings: &[Setting<'_>], operands: &[String]) -> Option<Wrong>
    ensures { result ≡ out_fault (map setting_in settings.now) (map string_bytes operands.now) }
{
    if is_given(9, settings) {
        None
    } else {
        Some(Wrong {
            at: operands.len(),
            why: WordWhy::Missing,
        })
    }
}

/// The first wrong place of what stands behind the options.
#[tactic(auto, using(crate::proofs::Judged::operands_inside))]
fn operands_fault(tool: Tool, settings: &[Setting<'_>], operands: &[String]) -> Option<Wrong>
    ensures value { result ≡ operands_fault tool (map setting_in settings.now) (map string_bytes operands.now) }
    ensures inside { IfSome result (λ w. w.at ≤ length operands.now) }
{
    match tool {
        Tool::SimSafe => run_fault(settings, operands),
        Tool::Record => match start_fault(operands) {
            Some(wrong) => Some(wrong),
            None => out_fault(settings, operands),
        },
        Tool::Asm => names_fault(2, operands),
        Tool::Dis => names_fault(1, operands),
    }
}

/// The options behind a command's name, the place behind them, and the words there.
fn settings_among<'a>(alloc: Global, tool: Tool, words: &'a [String]) -> Result<Walked<'a>, Stop>
    requires { 1 + length words.now < 2 ^ 64 }
    ensures value { Walks result (walk tool [] 1 0 (map string_bytes words.now)) }
    ensures within { IsWithin (1 + length words.now) result }
{
    let mut settings = Vec::new(alloc);
    let mut at: usize = 1;
    let mut rest = words;
    'options: while let Some((word, behind)) = rest.split_first() {
        if !begins_with_dash(word.as_str()) {
            return Ok(Walked { settings, at, rest });
        }
        match judged(tool, settings.as_slice(), at, word.as_str(), behind) {
            Ok(setting) => {
                at += 1 + setting.values.len();
                rest = behind.split_at(setting.values.len()).1;
                if settings.push(setting).is_err() {
                    return Err(Stop::NoMemory);
                }
            }
            Err(wrong) => return Err(Stop::Wrong(wrong)),
        }
    }
    Ok(Walked { settings, at, rest })
}

/// What words ask for, or the first wrong one.
pub(crate) fn read<'a>(alloc: Global, words: &'a [String]) -> Result<Reading<'a>, Stop>
    ensures { Reads result (read (map string_bytes words.now)) }
{
    let Some((command, others)) = words.split_first() else {
        return Err(Stop::Wrong(Wrong {
            at: 0,
            why: WordWhy::NoCommand,
        }));
    };
    let Some(tool) = tool_named(command.as_str()) else {
        return Err(Stop::Wrong(Wrong {
            at: 0,
            why: WordWhy::Command,
        }));
    };
    match settings_among(alloc, tool, others) {
        Ok(walked) => ended(tool, walked),
        Err(stop) => Err(stop),
    }
}

/// What words ask for whose options were walked over.
fn ended<'a>(tool: Tool, walked: Walked<'a>) -> Result<Reading<'a>, Stop>
    requires { walked.at + length walked.rest.now < 2 ^ 64 }
    ensures { Reads result (ended tool (Ok (walked_in walked.entry))) }
{
    let Walked { settings, at, rest } = walked;
    match operands_fault(tool, settings.as_slice(), rest) {
        None => Ok(Reading {
            tool,
            settings,
            operands: rest,
        }),
        Some(wrong) => Err(Stop::Wrong(Wrong {
            at: at + wrong.at,
            why: wrong.why,
        })),
    }
}
