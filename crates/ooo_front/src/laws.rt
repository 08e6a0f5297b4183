//! What follows from the definitions, each law as the contract of a function that does nothing.
ghost use Rattle.std.specs.Prelude.{ℕ, ◌<◌, ◌≤◌, List, All};
ghost use Rattle.ecoff_load.specs.declared.image.Text.{Text};
ghost use Rattle.mem_hier.specs.declared.config.HierConfig.{HierConfig};
ghost use Rattle.mem_hier.specs.Limits.{IsAllowed};
ghost use Rattle.mem_hier.specs.Replay.{Reference};
ghost use Rattle.mem_hier.specs.Stands.{CyclesRise, last_cycle_in};
ghost use Rattle.bpred_unit.specs.declared.config.PredConfig.{PredConfig};
ghost use Rattle.ooo_front.specs.declared.row.FetchRow.{FetchRow};
ghost use Rattle.ooo_front.specs.Fetching.{Stage, fetch_cycle};
ghost use Rattle.ooo_front.specs.Path.{IsPath, AreInOrder};
ghost use Rattle.ooo_front.specs.Laws.{AddsRows, GoesOnThere, IsQueuedSo};

/// A cycle makes the references and look-ups of the rows that it adds, in their order, and no others. It keeps the
/// width and the queue, fetches on behind each row but the last, and ends only where it must.
pub fn cycles_add_their_rows()
    ensures { (c : HierConfig) (p : PredConfig) (text : Text) (cycle : ℕ) (s : Stage) → AddsRows text cycle s (fetch_cycle c p text cycle s) }
{}

/// A front that is redirected fetches nothing before the earliest cycle, and first from the redirected address, with
/// the number that was next.
pub fn redirected_fronts_go_on_there()
    ensures { (c : HierConfig) (p : PredConfig) (text : Text) (pc earliest : ℕ) (before : List ℕ) (s : Stage)
        → All (λ n. n < earliest) before → GoesOnThere c p text pc earliest before s }
{}

/// A row is queued as late after its fetch as its reference takes longer than a lookup of its first level.
pub fn rows_are_queued_by_their_references()
    ensures { (c : HierConfig) (text : Text) (h : List Reference) (pc cycle : ℕ) → IsAllowed c → CyclesRise h → last_cycle_in h ≤ cycle
        → IsQueuedSo c text h pc cycle }
{}

/// Along a predicted path numbers rise, and no row is queued before an older one.
pub fn paths_are_in_order()
    ensures { (rows : List FetchRow) (number address at : ℕ) → IsPath rows number address at → AreInOrder rows }
{}
