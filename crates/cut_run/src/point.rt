//! A point that is taken of a machine goes to its file.
ghost use Rattle.std.specs.Prelude.{◌≤◌, ◌^◌};
ghost use Rattle.sim_safe.specs.State.{state_of};
ghost use Rattle.sim_watch.specs.Watch.{WritesOrCut};
ghost use Rattle.cut_run.specs.Parts.{point_writes, PutsPoint};

use checkpoint::{page_count, take, write};
use journal::{Fault, Outside};
use sim_safe::Arch;
use std::alloc::Global;

/// A point has at most so many pages.
const MOST_PAGES: u32 = 65_536;

/// Takes a point of the machine as it stands and adds its bytes to a file; or answers `false` where it has
/// too many pages, and adds nothing.
pub fn put_point<O: Outside>(
    alloc: Global,
    arch: &Arch,
    file: &str,
    outside: &mut O,
) -> Result<bool, Fault>
    requires { arch.now.icnt ≤ 10 ^ 15 }
    ensures writes { WritesOrCut O.view outside.old (point_writes (state_of arch.now) file.now) outside.new result }
    ensures large { PutsPoint (state_of arch.now) result }
{
    let Ok(point) = take(alloc, arch) else {
        return Err(Fault::OutOfMemory);
    };
    if page_count(&point) > MOST_PAGES {
        return Ok(false);
    }
    let Ok(bytes) = write(alloc, &point) else {
        return Err(Fault::OutOfMemory);
    };
    drop(point);
    match outside.append(file, bytes.as_slice()) {
        Ok(()) => Ok(true),
        Err(fault) => Err(fault),
    }
}
