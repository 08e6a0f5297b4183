//! What words and a configuration say about a command.
ghost use Rattle.std.specs.Prelude.{◌≡◌, ◌<◌, ◌++◌, ◌∷◌, [], map, get_or, string_bytes, OnOk, IfOk, Some, nat_eq};
ghost use Rattle.std.specs.List.{list_any};
ghost use Rattle.arrayvec.specs.ArrayVec.{array_vec_len};
ghost use Rattle.sim_opts.specs.Kept.{setting_in, asks_in};
ghost use Rattle.sim_opts.specs.Options.{said_in, said_with, first_value, last_number, with_settings, nothing_said, said_behind, given_in, kept_if, said_by};
ghost use Rattle.sim_opts.specs.Configuration.{with_configuration};

use crate::names::Names;
use crate::table::{Tool, table};
use crate::word::digits_of;
use crate::words::{Reading, Setting, is_given};
use arrayvec::ArrayVec;
use ss_base::{Name, OutOfMemory};
use std::alloc::Global;

/// The most instructions of a run for which no number is given.
const MOST_INSTRUCTIONS: u64 = 1_000_000_000;

/// What words and a configuration say about a command. A field that neither sets holds the default
/// of its option, or is none, empty or 0.
#[derive(Debug, Drop)]
pub struct Options {
    /// The command.
    pub tool: Tool,
    /// The file of the object.
    pub object: Name,
    /// The arguments that a program finds, of which the object's name is the first.
    pub args: Names,
    /// The file of the source.
    pub source: Option<Name>,
    /// The file of the configuration.
    pub config: Option<Name>,
    /// The file of the recorded calls.
    pub trace: Option<Name>,
    /// The file of the point at which the run starts.
    pub restart: Option<Name>,
    /// The file that the commit text is written to.
    pub commits: Option<Name>,
    /// The file that a point is written to, and after how many instructions.
    pub chkpt: Option<(Name, u64)>,
    /// The file that a trace is written to.
    pub out: Option<Name>,
    /// The file that is the program's input.
    pub input: Option<Name>,
    /// The files that the program can open.
    pub files: Names,
    /// The most instructions that are done, at most 10^12.
    pub max_inst: u64,
    /// How many instructions are skipped, at most 10^12.
    pub fastfwd: u64,
    /// The numbers of the options that stood among the words, rising.
    pub given: ArrayVec<u8, 64>,
}

/// A text as a `String` of its own.
pub(crate) fn copied(alloc: Global, text: &str) -> Result<String, OutOfMemory>
    ensures { IfOk result (λ s. string_bytes s ≡ text.now) }
{
    Ok(String::from_str(alloc, text)?)
}

/// A text as a name.
fn name_of(alloc: Global, text: &str) -> Result<Name, OutOfMemory>
    ensures { IfOk result (λ n. n ≡ text.now) }
{
    Ok(Name::from_string(copied(alloc, text)?))
}

/// Puts a name into a field.
fn name_field(alloc: Global, text: &str, field: &mut Option<Name>) -> Result<(), OutOfMemory>
    ensures { OnOk result (field.new ≡ Some text.now) }
{
    *field = Some(name_of(alloc, text)?);
    Ok(())
}

/// Puts a name and a number into a field.
fn point_field(
    alloc: Global,
    text: &str,
    number: u64,
    field: &mut Option<(Name, u64)>,
) -> Result<(), OutOfMemory>
    ensures { OnOk result (field.new ≡ Some (text.now, number)) }
{
    *field = Some((name_of(alloc, text)?, number));
    Ok(())
}

/// The value at a place, or an empty one.
fn value_at(values: &[String], place: usize) -> &str
    ensures { result.now ≡ get_or (map string_bytes values.now) place [] }
{
    match values.get(place) {
        Some(value) => value.as_str(),
        None => "",
    }
}

/// Copies of names.
fn names_of(alloc: Global, names: &[String]) -> Result<Names, OutOfMemory>
    ensures { IfOk result (λ n. n ≡ map string_bytes names.now) }
{
    let mut copies = Names::from_vec(Vec::new(alloc));
    for name in names {
        copies.add(alloc, name.as_str())?;
    }
    Ok(copies)
}

/// The numbers of the options that stand among words, rising.
fn given_in(settings: &[Setting<'_>]) -> ArrayVec<u8, 64>
    ensures { result.items ≡ given_in (map setting_in settings.now) }
{
    let mut given = ArrayVec::new();
    for row in table() {
        given = kept(given, row.number, is_given(row.number, settings));
    }
    given
}

/// With a number, where it is to be kept.
fn kept(given: ArrayVec<u8, 64>, number: u8, is_kept: bool) -> ArrayVec<u8, 64>
    requires { array_vec_len given < 64 }
    ensures { result.items ≡ given.items ++ kept_if is_kept number }
{
    let mut given = given;
    if !is_kept {
        return given;
    }
    given.push(number);
    given
}

/// Whether a number is among others.
fn stands(numbers: &[u8], number: u8) -> bool
    ensures { result ≡ list_any (λ n. nat_eq n number) numbers.now }
{
    numbers.iter().any(|n| *n == number)
}

/// What words say that ask for this.
pub(crate) fn options_of(alloc: Global, reading: Reading<'_>) -> Result<Options, OutOfMemory>
    ensures { IfOk result (λ o. said_in o ≡ said_by (asks_in reading.entry)) }
{
    let mut options = Options::new(alloc, reading.tool);
    options.given = given_in(reading.settings.as_slice());
    options.set_all(alloc, reading.settings.as_slice())?;
    options.set_behind(alloc, reading.operands)?;
    Ok(options)
}

/// The first value of an option.
fn first_value(values: &[String]) -> &str
    ensures { result.now ≡ first_value (map string_bytes values.now) }
{
    match values.first() {
        Some(value) => value.as_str(),
        None => "",
    }
}

/// The number that the last value of an option writes.
fn last_number(values: &[String]) -> u64
    ensures { result ≡ last_number (map string_bytes values.now) }
{
    match values.last() {
        Some(value) => digits_of(value.as_str()).unwrap_or(0),
        None => 0,
    }
}

impl Options {
    /// What is said where no word stands behind the command's name.
    pub(crate) fn new(alloc: Global, tool: Tool) -> Options
        ensures { said_in result ≡ nothing_said tool }
    {
        Options {
            tool,
            object: Name::from_string(String::new(alloc)),
            args: Names::from_vec(Vec::new(alloc)),
            source: None,
            config: None,
            trace: None,
            restart: None,
            commits: None,
            chkpt: None,
            out: None,
            input: None,
            files: Names::from_vec(Vec::new(alloc)),
            max_inst: MOST_INSTRUCTIONS,
            fastfwd: 0,
            given: ArrayVec::new(),
        }
    }

    /// Sets the field of an option by its number.
    fn set(&mut self, alloc: Global, option: u8, text: &str, number: u64) -> Result<(), OutOfMemory>
        ensures { OnOk result (said_in self.new ≡ said_with option text.now number (said_in self.old)) }
    {
        match option {
            0 => name_field(alloc, text, &mut self.config),
            1 => name_field(alloc, text, &mut self.trace),
            2 => name_field(alloc, text, &mut self.restart),
            3 => name_field(alloc, text, &mut self.commits),
            5 => point_field(alloc, text, number, &mut self.chkpt),
            6 => {
                self.max_inst = number;
                Ok(())
            }
            8 => {
                self.fastfwd = number;
                Ok(())
            }
            9 => name_field(alloc, text, &mut self.out),
            10 => name_field(alloc, text, &mut self.input),
            11 => self.files.add(alloc, text),
            _ => Ok(()),
        }
    }

    /// Sets the field of an option in a configuration, unless it stood among the words.
    pub(crate) fn configure(
        &mut self,
        alloc: Global,
        setting: &Setting<'_>,
    ) -> Result<(), OutOfMemory>
        ensures { OnOk result (said_in self.new ≡ with_configuration (said_in self.old) (setting_in setting.now ∷ [])) }
    {
        if stands(self.given.as_slice(), setting.option.number) {
            return Ok(());
        }
        self.set(
            alloc,
            setting.option.number,
            first_value(setting.values),
            last_number(setting.values),
        )?;
        Ok(())
    }

    /// Sets the fields of options.
    pub(crate) fn set_all(
        &mut self,
        alloc: Global,
        settings: &[Setting<'_>],
    ) -> Result<(), OutOfMemory>
        ensures { OnOk result (said_in self.new ≡ with_settings (said_in self.old) (map setting_in settings.now)) }
    {
        for setting in settings {
            self.set(
                alloc,
                setting.option.number,
                first_value(setting.values),
                last_number(setting.values),
            )?;
        }
        Ok(())
    }

    /// Sets the object, and what else stands behind the options.
    fn set_behind(&mut self, alloc: Global, words: &[String]) -> Result<(), OutOfMemory>
        ensures { OnOk result (said_in self.new ≡ said_behind self.old.tool (map string_bytes words.now) (said_in self.old)) }
    {
        match self.tool {
            Tool::SimSafe | Tool::Record => {
                self.object = name_of(alloc, value_at(words, 0))?;
                self.args = names_of(alloc, words)?;
            }
            Tool::Asm => {
                self.source = Some(name_of(alloc, value_at(words, 0))?);
                self.object = name_of(alloc, value_at(words, 1))?;
            }
            Tool::Dis => self.object = name_of(alloc, value_at(words, 0))?,
        }
        Ok(())
    }
}
