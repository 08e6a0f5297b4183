//! The stages before the fetches, over a machine.
ghost use Rattle.std.specs.Prelude.{◌^◌, ℕ, List};
ghost use Rattle.std.specs.Option.{ForSome};
ghost use Rattle.mem_hier.specs.Replay.{Reference};
ghost use Rattle.bpred_unit.specs.History.{Event};
ghost use Rattle.bpred_unit.specs.Stands.{cells_of, IsTop};
ghost use Rattle.ooo_table.specs.Row as table;
ghost use Rattle.ooo_table.specs.Table.{NextFetch, Table};
ghost use Rattle.ooo_table.specs.Machine.{Given};
ghost use Rattle.plain_machine.specs.Fits.{Fits};
ghost use Rattle.plain_machine.specs.Standing.{Stands};
ghost use Rattle.plain_machine.specs.Stages.{CommitsSo, RecoversSo, IssuesSo, dispatched_rows, RollsBack, RollsBackIf};

use crate::machine::Plain;
use ooo_plain::commit::commit_until;
use ooo_plain::issue_stage;
use ooo_plain::next_fetch::redirect;
use ooo_plain::recover::{redirected, squash};
use ooo_plain::references::refer_stores;
use ooo_plain::updates::update_all;

/// Commits, up to the row with which the run ends, and tells the hierarchy and the predictor of them. The answer is the
/// number of that row, `None` where the run doesn't end so in this cycle.
pub fn commit(plain: &mut Plain, cycle: u64, most: u64) -> Option<u64>
    requires { Fits cycle 0 0 plain.old }
    ensures stands { (g : Given) (rows : List table.Row) (next : NextFetch) (h : List Reference) (e : List Event) → Stands g rows next h e plain.old
        → CommitsSo g cycle most rows next h e plain.new result }
    ensures fits { Fits cycle (2 ^ 30) 0 plain.new }
{
    let last = commit_until(&plain.config, plain.rows.as_mut_slice(), cycle, most);
    refer_stores(plain.rows.as_slice(), &mut plain.hier, cycle);
    update_all(plain.rows.as_slice(), &mut plain.predictor, cycle);
    last
}

/// Puts back the top of the return stack, and forgets what wrong rows did.
fn roll_back(plain: &mut Plain)
    requires { ForSome plain.old.top (IsTop (cells_of plain.old.predictor)) }
    ensures { RollsBack plain.old plain.new }
{
    if let Some(top) = plain.top {
        plain.predictor.recover(top);
    }
    plain.copy = None;
}

/// Rolls back where a row recovers.
fn roll_back_if(plain: &mut Plain, found: bool)
    requires { ForSome plain.old.top (IsTop (cells_of plain.old.predictor)) }
    ensures { RollsBackIf found plain.old plain.new }
{
    if found {
        roll_back(plain);
    }
}

/// Squashes what comes behind the row that recovers in the cycle, if there is one, and sends fetching on behind it.
pub fn recover(plain: &mut Plain, cycle: u64)
    requires { Fits cycle (2 ^ 30) 0 plain.old }
    ensures stands { (g : Given) (rows : List table.Row) (next : NextFetch) (h : List Reference) (e : List Event) → Stands g rows next h e plain.old
        → RecoversSo g cycle rows next h e plain.new }
    ensures fits { Fits cycle (2 ^ 30) 0 plain.new }
{
    let found = redirected(plain.rows.as_slice(), cycle).is_some();
    plain.next = redirect(&plain.config, plain.rows.as_slice(), &plain.next, cycle);
    squash(plain.rows.as_mut_slice(), cycle);
    roll_back_if(plain, found);
}

/// Issues.
pub fn issue(plain: &mut Plain, cycle: u64)
    requires { Fits cycle (2 ^ 30) 0 plain.old }
    ensures stands { (g : Given) (t : Table) (e : List Event) → IssuesSo g cycle t e plain.old plain.new }
    ensures fits { Fits cycle (2 ^ 31) 0 plain.new }
{
    issue_stage::issue(
        &plain.config,
        &mut plain.hier,
        plain.rows.as_mut_slice(),
        cycle,
    );
}

/// Dispatches.
pub fn dispatch(plain: &mut Plain, cycle: u64)
    requires { Fits cycle (2 ^ 31) 0 plain.old }
    ensures stands { (g : Given) (rows : List table.Row) (next : NextFetch) (h : List Reference) (e : List Event) → Stands g rows next h e plain.old
        → Stands g (dispatched_rows g cycle rows) next h e plain.new }
    ensures fits { Fits cycle (2 ^ 31) 0 plain.new }
{
    ooo_plain::dispatch::dispatch(&plain.config, plain.rows.as_mut_slice(), cycle);
}
