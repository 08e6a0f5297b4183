//! How the table's counts grow, carried by a call whose contract is the law.
ghost use Rattle.std.specs.Prelude.{ℕ};
ghost use Rattle.ooo_table.specs.Table.{Setting};
ghost use Rattle.ooo_table.specs.Machine.{Given};
ghost use Rattle.core_statistics.specs.CountLaws.{CountsGrow};
ghost use Rattle.core_statistics.specs.StageCounts.{StagesCount};
ghost use Rattle.core_statistics.specs.Standing.{CountsStand};

/// The counts of the table grow in each stage by what the stage did.
pub fn counts_grow()
    ensures { (set : Setting) (c : ℕ) → CountsGrow set c }
{}

/// What a core's calls add to counts of the table is what the table's rows show of each stage.
pub fn stages_count()
    ensures { (g : Given) (c : ℕ) → StagesCount g c }
{}

/// What a core counts of each stage keeps its counts those of the run.
pub fn counts_stand()
    ensures { (g : Given) (c : ℕ) → CountsStand g c }
{}
