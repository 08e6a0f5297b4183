//! What happens to rows, and the whole of a run.
ghost use Rattle.std.specs.Prelude.{◌≡◌};

use pisa_step::Cause;
use std::marker::Model;

/// What a stage did to a row.
#[derive(Clone, Copy, Debug, PartialEq, Eq)]
pub enum Mark {
    /// It was fetched.
    Fetched {
        /// Its address.
        pc: u32,
        /// The address that was predicted to come next.
        next: u32,
        /// The cycle at which its words are there.
        queued: u64,
    },
    /// It was dispatched.
    Dispatched,
    /// Its main operation issued.
    Issued,
    /// Its main operation wrote back.
    Written,
    /// The access of a load issued.
    Accessed,
    /// The access of a load returned.
    Returned,
    /// It committed.
    Committed,
    /// It was squashed.
    Squashed,
}

/// One act of one stage on one row in one cycle.
#[derive(Clone, Copy, Debug, PartialEq, Eq)]
pub struct Event {
    /// The cycle, counted from 0.
    pub cycle: u64,
    /// The number of the row: how many rows were fetched before it.
    pub row: u64,
    /// What was done.
    pub mark: Mark,
}

/// How a run ended.
#[derive(Clone, Copy, Debug, PartialEq, Eq)]
pub enum EndWord {
    /// By an exit with this code.
    Exited(u32),
    /// By a budget.
    Budget,
    /// The next instruction can't be done.
    Stopped {
        /// Its address.
        pc: u32,
        /// How many instructions were done.
        icnt: u64,
        /// Why it can't be done, which is no exit.
        cause: Cause,
    },
}

/// Events in the order of the run. Contracts see them as a list.
#[derive(Debug, Drop)]
pub struct Events {
    items: Vec<Event>,
}

/// What happened in a run.
#[derive(Debug, Drop)]
pub struct Log {
    /// The events, by cycle; those of one cycle by stage, and then by row.
    pub events: Events,
    /// How many cycles were run.
    pub cycles: u64,
    /// How it ended.
    pub end: EndWord,
}

impl Model for Events {
    ghost use Rattle.std.specs.Prelude.{List};
    ghost use Rattle.ooo_table.specs.declared.event.Event.{Event};

    ghost Value = { List Event };

    ghost view = { λ e. e.items.items };
}

impl Events {
    /// The events of a `Vec`.
    pub fn from_vec(items: Vec<Event>) -> Events
        ensures { result ≡ items.items }
    {
        Events { items }
    }

    /// The events as a slice.
    pub fn as_slice(&self) -> &[Event]
        ensures { result.now ≡ self.now }
    {
        self.items.as_slice()
    }
}
