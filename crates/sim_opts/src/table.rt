//! The table of options: each option's number, name, values, default and commands.
ghost use Rattle.std.specs.Prelude.{◌≡◌, ◌<◌, map, bytes_eq};
ghost use Rattle.std.specs.Option.{option_map};
ghost use Rattle.sim_opts.specs.Table.{table, row_named, row_in, most_of, tool_named, is_unbuilt_name};

/// A command that is built.
#[derive(Clone, Copy, Debug, PartialEq, Eq)]
pub enum Tool {
    /// Runs an object.
    SimSafe,
    /// Runs an object and records its calls.
    Record,
    /// Makes an object of a source.
    Asm,
    /// Prints an object's instructions.
    Dis,
}

/// What a value of an option has to be.
#[derive(Clone, Copy, Debug)]
pub(crate) enum Slot {
    /// The name of a file.
    File,
    /// A number, at most this.
    Number(u64),
}

/// An option.
#[derive(Clone, Copy, Debug)]
pub(crate) struct Row {
    /// Its number.
    pub number: u8,
    /// Its name.
    pub name: &'static str,
    /// What its values have to be, in their order, where a command that is built has it.
    pub slots: &'static [Slot],
    /// The number that holds where the option is left out, or 0 where none does.
    pub default: u64,
    /// Whether it stands among words alone, and not in a configuration.
    pub words_alone: bool,
    /// How often it may stand on `sim-safe`.
    pub sim_safe: u8,
    /// How often it may stand on `record`.
    pub recording: u8,
}

/// The most instructions that a number asks for.
const MOST_INSTRUCTIONS: u64 = 1_000_000_000_000;

/// The values of an option that names a file.
const FILE: [Slot; 1] = [Slot::File];

/// The values of an option that has a number.
const NUMBER: [Slot; 1] = [Slot::Number(MOST_INSTRUCTIONS)];

/// The values of an option that has both.
const FILE_AND_NUMBER: [Slot; 2] = [Slot::File, Slot::Number(MOST_INSTRUCTIONS)];

/// An option of a command that is built: number, name, values, default, whether among words alone,
/// how often on `sim-safe`, how often on `record`.
macro_rules! option_row {
    ($number:literal, $name:literal, $slots:expr, $default:literal, $alone:literal, $safe:literal, $recording:literal) => {
        Row {
            number: $number,
            name: $name,
            slots: $slots,
            default: $default,
            words_alone: $alone,
            sim_safe: $safe,
            recording: $recording,
        }
    };
}

/// An option of commands that are not built.
macro_rules! later_row {
    ($number:literal, $name:literal) => {
        option_row!($number, $name, &[], 0, false, 0, 0)
    };
}

/// The options in the order of their numbers.
static TABLE: [Row; 44] = [
    option_row!(0, "-config", &FILE, 0, true, 1, 0),
    option_row!(1, "-trace", &FILE, 0, false, 1, 0),
    option_row!(2, "-restart", &FILE, 0, true, 1, 0),
    option_row!(3, "-commits", &FILE, 0, false, 1, 0),
    later_row!(4, "-ptrace"),
    option_row!(5, "-chkpt", &FILE_AND_NUMBER, 0, false, 1, 0),
    option_row!(6, "-max:inst", &NUMBER, 1_000_000_000, false, 1, 1),
    later_row!(7, "-max:cycles"),
    option_row!(8, "-fastfwd", &NUMBER, 0, false, 1, 0),
    option_row!(9, "-o", &FILE, 0, false, 0, 1),
    option_row!(10, "-in", &FILE, 0, false, 0, 1),
    option_row!(11, "-file", &FILE, 0, false, 0, 8),
    later_row!(12, "-cache:il1"),
    later_row!(13, "-cache:il2"),
    later_row!(14, "-cache:dl1"),
    later_row!(15, "-cache:dl2"),
    later_row!(16, "-tlb:itlb"),
    later_row!(17, "-tlb:dtlb"),
    later_row!(18, "-cache:il1lat"),
    later_row!(19, "-cache:dl1lat"),
    later_row!(20, "-cache:il2lat"),
    later_row!(21, "-cache:dl2lat"),
    later_row!(22, "-mem:lat"),
    later_row!(23, "-mem:width"),
    later_row!(24, "-tlb:lat"),
    later_row!(25, "-bpred"),
    later_row!(26, "-bpred:bimod"),
    later_row!(27, "-bpred:2lev"),
    later_row!(28, "-bpred:comb"),
    later_row!(29, "-bpred:btb"),
    later_row!(30, "-bpred:ras"),
    later_row!(31, "-fetch:ifqsize"),
    later_row!(32, "-fetch:mplat"),
    later_row!(33, "-decode:width"),
    later_row!(34, "-issue:width"),
    later_row!(35, "-commit:width"),
    later_row!(36, "-ruu:size"),
    later_row!(37, "-lsq:size"),
    later_row!(38, "-res:ialu"),
    later_row!(39, "-res:imult"),
    later_row!(40, "-res:memport"),
    later_row!(41, "-cache:fill"),
    later_row!(42, "-issue:inorder"),
    later_row!(43, "-issue:wrongpath"),
];

/// The options as a slice.
pub(crate) fn table() -> &'static [Row]
    ensures { map row_in result.now ≡ table }
{
    &TABLE
}

/// The option with a name, `None` exactly where there is none.
pub(crate) fn row_named(word: &str) -> Option<Row>
    ensures { option_map row_in result ≡ row_named word.now }
{
    for row in table() {
        if row.name == word {
            return Some(*row);
        }
    }
    None
}

impl Tool {
    /// How often an option may stand on a command.
    pub(crate) fn most_of(self, row: &Row) -> u8
        ensures { result ≡ most_of self (row_in row.now) }
    {
        match self {
            Tool::SimSafe => row.sim_safe,
            Tool::Record => row.recording,
            Tool::Asm | Tool::Dis => 0,
        }
    }
}

/// The command with a name, `None` exactly where no command that is built has it.
#[tactic(auto, unfolding(crate::specs::Table::tool_named))]
pub(crate) fn tool_named(word: &str) -> Option<Tool>
    ensures { result ≡ tool_named word.now }
{
    match word {
        "sim-safe" => Some(Tool::SimSafe),
        "record" => Some(Tool::Record),
        "asm" => Some(Tool::Asm),
        "dis" => Some(Tool::Dis),
        _ => None,
    }
}

/// Whether a word is the name of a command that is not built.
#[tactic(auto, unfolding(crate::specs::Table::is_unbuilt_name))]
pub(crate) fn is_unbuilt_name(word: &str) -> bool
    ensures { result ≡ is_unbuilt_name word.now }
{
    matches!(word, "sim-cache" | "sim-bpred" | "sim-outorder" | "bench")
}
