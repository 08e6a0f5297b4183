//! The two-level adaptive predictor.
ghost use Rattle.std.specs.Prelude.{◌≡◌, ◌+◌, ◌*◌, ◌%◌, ◌^◌, ◌<◌, ◌≤◌, [], length, bit_xor, IfOk, if◌then◌else◌};
ghost use Rattle.bpred_tables.specs.Updates.{Adaptive, digit, second_place};
ghost use Rattle.bpred_tables.specs.Tables.{TwoTables, TwoLevelStands, levels_of};

use crate::counters::{Counters, index_in};
use crate::directions::Direction;
use ss_base::OutOfMemory;
use std::alloc::Global;
use std::marker::Model;

/// The history after one more outcome of a branch.
fn shifted(history: u32, taken: bool, width: u32) -> u32
    requires width { width ≤ 16 }
    requires history { history < 2 ^ width }
    ensures next { result ≡ (2 * history + digit taken) % 2 ^ width }
    ensures within { result < 2 ^ width }
{
    (2 * history + u32::from(taken)) % (1 << width)
}

/// A history beside an instruction's number: mixed by exclusive or, or concatenated.
fn pattern(history: u32, instruction: u32, width: u32, xor: bool) -> u64
    requires width { width ≤ 16 }
    requires instruction { instruction < 2 ^ 29 }
    ensures { result ≡ (if xor then bit_xor history instruction
        else history + instruction * 2 ^ width) }
{
    if xor {
        u64::from(history ^ instruction)
    } else {
        u64::from(history) + u64::from(instruction) * (1 << width)
    }
}

/// Histories of the last outcomes of branches, and counters by history and instruction.
#[derive(Debug, Drop)]
pub struct TwoLevel {
    histories: Vec<u32>,
    counters: Counters,
    width: u32,
    xor: bool,
}

impl Model for TwoLevel {
    ghost use Rattle.bpred_tables.specs.Tables.{TwoTables, IsTwoTables};

    ghost Value = { TwoTables };

    ghost view = { λ t. record {
      histories = t.histories.items;
      counters = t.counters;
      width = t.width;
      xored = t.xor;
    } };

    ghost invariant = { λ t. IsTwoTables (record {
      histories = t.histories.items;
      counters = t.counters;
      width = t.width;
      xored = t.xor;
    }) };
}

impl TwoLevel {
    /// `l1` histories of `width` outcomes, each 0, and `l2` counters, each at 1, of no updates.
    pub fn new(
        alloc: Global,
        l1: u32,
        l2: u32,
        width: u32,
        xor: bool,
    ) -> Result<TwoLevel, OutOfMemory>
        requires first { 1 ≤ l1 }
        requires second { 1 ≤ l2 }
        requires width { width ≤ 16 }
        ensures sizes { IfOk result (λ t.
            levels_of t ≡ record { first = l1; second = l2; width = width; xored = xor }) }
        ensures start { IfOk result (λ t. TwoLevelStands t []) }
    {
        Ok(TwoLevel {
            histories: vec![in alloc; 0; l1 as usize]?,
            counters: Counters::new(alloc, l2)?,
            width,
            xor,
        })
    }

    /// The place of the counter that the branch at `pc` has under a history.
    fn second_index(&self, history: u32, pc: u32) -> usize
        ensures index { result ≡ second_place (levels_of self.now) history pc }
        ensures within { result < length self.now.counters }
    {
        let mixed = pattern(history, pc / 8, self.width, self.xor);
        (mixed % self.counters.len() as u64) as usize
    }
}

impl Direction for TwoLevel {
    ghost scheme = { λ t. Adaptive (levels_of t) };

    ghost stands_for = { TwoLevelStands };

    fn predict(&self, pc: u32) -> bool {
        let history = self.histories[index_in(self.histories.len(), pc)];
        self.counters.is_taken(self.second_index(history, pc))
    }

    fn update(&mut self, pc: u32, taken: bool) {
        let first = index_in(self.histories.len(), pc);
        let history = self.histories[first];
        let next = shifted(history, taken, self.width);
        let second = self.second_index(history, pc);
        self.counters.count(second, taken);
        self.histories[first] = next;
    }
}
