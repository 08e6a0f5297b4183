//! The return stack of a configuration, which may have none.
ghost use Rattle.std.specs.Prelude.{◌≡◌, ◌≤◌, List, [], ◌∷◌, IfOk, is_some};
ghost use Rattle.bpred_tables.specs.Stack.{Call, SetTop};
ghost use Rattle.bpred_unit.specs.History.{cells_for, stacked, top_by, following};
ghost use Rattle.bpred_unit.specs.Stands.{cells_in, ReturnsStand, IsTop};
ghost use Rattle.bpred_unit.specs.Parts.{popped_by};

use bpred_tables::Ras;
use pisa_isa::ControlKind;
use ss_base::OutOfMemory;
use std::alloc::Global;

/// The address of the instruction behind the one at `pc`.
pub(crate) fn following(pc: u32) -> u32
    ensures { result ≡ following pc }
{
    pc.wrapping_add(8)
}

/// The stack of return addresses, if there is one.
#[derive(Debug, Drop)]
pub(crate) struct Returns {
    stack: Option<Ras>,
}

impl Returns {
    /// A new stack of `size` cells, and none where that is 0.
    pub(crate) fn new(alloc: Global, size: u32) -> Result<Returns, OutOfMemory>
        requires { size ≤ 1024 }
        ensures cells { IfOk result (λ r. cells_in r.stack ≡ cells_for size) }
        ensures start { IfOk result (λ r. ReturnsStand r.stack []) }
    {
        if size == 0 {
            return Ok(Returns { stack: None });
        }
        Ok(Returns {
            stack: Some(Ras::new(alloc, size)?),
        })
    }

    /// Pushes at the look-up of a call. At that of a return it pops, and answers where the return goes:
    /// `None` for all else, and exactly then where there is a stack.
    pub(crate) fn look(&mut self, kind: ControlKind, pc: u32) -> Option<u32>
        ensures answer { (calls : List Call) → ReturnsStand self.old.stack calls
            → result ≡ popped_by (cells_in self.old.stack) kind calls }
        ensures cells { cells_in self.new.stack ≡ cells_in self.old.stack }
        ensures looked { (calls : List Call) → ReturnsStand self.old.stack calls
            → ReturnsStand self.new.stack (stacked kind pc calls) }
    {
        match &mut self.stack {
            None => None,
            Some(stack) => match kind {
                ControlKind::Return => Some(stack.pop()),
                ControlKind::Call => {
                    stack.push(following(pc));
                    None
                }
                _ => None,
            },
        }
    }

    /// The number of the top cell, 0 without a stack.
    pub(crate) fn top(&self) -> u32
        ensures answer { (calls : List Call) → ReturnsStand self.now.stack calls
            → result ≡ top_by (cells_in self.now.stack) calls }
        ensures within { IsTop (cells_in self.now.stack) result }
    {
        match &self.stack {
            None => 0,
            Some(stack) => stack.top(),
        }
    }

    /// Puts a top back, and leaves all cells.
    pub(crate) fn set_top(&mut self, top: u32)
        requires { IsTop (cells_in self.old.stack) top }
        ensures cells { cells_in self.new.stack ≡ cells_in self.old.stack }
        ensures set { (calls : List Call) → ReturnsStand self.old.stack calls
            → ReturnsStand self.new.stack (SetTop top ∷ calls) }
    {
        match &mut self.stack {
            None => (),
            Some(stack) => stack.set_top(top),
        }
    }

    /// Whether there is a stack.
    pub(crate) fn is_there(&self) -> bool
        ensures { result ≡ is_some (cells_in self.now.stack) }
    {
        self.stack.is_some()
    }
}
