//! Worked tables, each as the contract of a function that does nothing: a short program, the machine that it runs on, and
//! the cycles of all marks of all of its rows. Its arguments make no difference.
ghost use Rattle.std.specs.Prelude.{ℕ, List};
ghost use Rattle.ooo_table.specs.WorkedTables.{FirstObject, FirstObjectOnNarrowMachine, MispredictedBranch, BranchWithoutWrongIssue, StoreAndLoads, StoreAndLoadsInOrder, TwoDivisions, CallBehindFullUnit, TwoLoadsAtOnce, TwoLoadsInFlight, WrongStoreToText};

/// The first object takes 46 cycles under the defaults.
pub fn first_object()
    ensures { (args : List (List ℕ)) → FirstObject args }
{}

/// On a machine with one of everything it takes 9 cycles.
pub fn first_object_on_narrow_machine()
    ensures { (args : List (List ℕ)) → FirstObjectOnNarrowMachine args }
{}

/// A mispredicted branch squashes the rows behind it, of which a load and a store were issued.
pub fn mispredicted_branch()
    ensures { (args : List (List ℕ)) → MispredictedBranch args }
{}

/// The same program where wrong rows do not issue.
pub fn branch_without_wrong_issue()
    ensures { (args : List (List ℕ)) → BranchWithoutWrongIssue args }
{}

/// A load waits for the address of an older store, which gives its value.
pub fn store_and_loads()
    ensures { (args : List (List ℕ)) → StoreAndLoads args }
{}

/// The same program where issue is in order.
pub fn store_and_loads_in_order()
    ensures { (args : List (List ℕ)) → StoreAndLoadsInOrder args }
{}

/// The second of two divisions issues 19 cycles after the first.
pub fn two_divisions()
    ensures { (args : List (List ℕ)) → TwoDivisions args }
{}

/// A system call waits until the unit is empty.
pub fn call_behind_full_unit()
    ensures { (args : List (List ℕ)) → CallBehindFullUnit args }
{}

/// The second load of a block hits at once.
pub fn two_loads_at_once()
    ensures { (args : List (List ℕ)) → TwoLoadsAtOnce args }
{}

/// Where hits wait, it waits for the line of the first.
pub fn two_loads_in_flight()
    ensures { (args : List (List ℕ)) → TwoLoadsInFlight args }
{}

/// A store on the wrong path that would write to the text holds no place of a store and does nothing.
pub fn wrong_store_to_text()
    ensures { (args : List (List ℕ)) → WrongStoreToText args }
{}
