//! What is wrong with a value of an option.
ghost use Rattle.std.specs.Prelude.{◌≡◌};
ghost use Rattle.sim_opts.specs.Values.{number_fault, value_fault};

use crate::table::Slot;
use crate::word::digits_of;

/// Why a word cannot be a value of an option.
#[derive(Clone, Copy, Debug)]
pub(crate) enum ValueWhy {
    /// It is no number.
    Number,
    /// It is a number outside its limits.
    Range,
    /// It has another shape.
    Form,
}

/// Why a number, or none, cannot be a value of at most `most`.
fn number_fault(most: u64, number: Option<u64>) -> Option<ValueWhy>
    ensures { result ≡ number_fault most number }
{
    match number {
        None => Some(ValueWhy::Number),
        Some(n) => {
            if n <= most {
                None
            } else {
                Some(ValueWhy::Range)
            }
        }
    }
}

/// Why a word cannot be this value, `None` exactly where it can.
pub(crate) fn value_fault(slot: Slot, word: &str) -> Option<ValueWhy>
    ensures { result ≡ value_fault slot word.now }
{
    match slot {
        Slot::File => {
            if word.is_empty() {
                Some(ValueWhy::Form)
            } else {
                None
            }
        }
        Slot::Number(most) => number_fault(most, digits_of(word)),
    }
}
