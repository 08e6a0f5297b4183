//! The stage.
ghost use Rattle.std.specs.Prelude.{◌≡◌, ◌+◌, ◌≤◌, ◌++◌, length, option_to_list};
ghost use Rattle.core_parts.specs.Fits.{Fits};
ghost use Rattle.core_parts.specs.Stages.{Issues};
ghost use Rattle.core_issue.specs.Stage.{RanAll};

use crate::turns;
use arrayvec::ArrayVec;
use core_parts::{Issued, Parts};

/// Adds what issued in a turn, if anything did.
fn add(issued: &mut ArrayVec<Issued, 32>, answer: Option<Issued>)
    requires { length issued.old.items + length (option_to_list answer) ≤ 32 }
    ensures { issued.new.items ≡ issued.old.items ++ option_to_list answer }
{
    if let Some(done) = answer {
        issued.push(done);
    }
}

/// Gives each live row its turn at the cycle, the oldest first, and answers what issued in that order.
pub fn issue(parts: &mut Parts, cycle: u64) -> ArrayVec<Issued, 32>
    requires fits { Fits cycle 32 parts.old }
    ensures fits { Fits cycle 64 parts.new }
    ensures ran { RanAll cycle parts.old parts.new result.items }
    ensures issues { Issues cycle parts.old parts.new result.items }
{
    let mut issued = ArrayVec::new();
    let mut after = None;
    while let Some(t) = turns::next_turn_within(parts, cycle, issued.len(), after) {
        let answer = turns::take_turn(parts, cycle, issued.len(), t);
        add(&mut issued, answer);
        after = Some(t.row);
    }
    issued
}
