//! The parts.
ghost use Rattle.std.specs.Prelude.{◌^◌, ◌<◌, ◌≤◌, IfOk};
ghost use Rattle.mem_hier.specs.Stands.{references_of};
ghost use Rattle.ooo_table.specs.Limits.{IsAllowed};
ghost use Rattle.core_parts.specs.Fits.{Fits};
ghost use Rattle.core_start.specs.Start.{IsSettled, Starts};

use crate::buffers::Buffers;
use bpred_unit::Predictor;
use core_parts::Parts;
use fu_pool::Pools;
use mem_hier::Hier;
use ooo_table::OooConfig;
use sim_safe::Arch;
use ss_base::OutOfMemory;
use std::alloc::Global;

/// The hierarchy, settled.
fn settled(mut hier: Hier) -> Hier
    ensures { IsSettled hier result }
{
    hier.settle();
    hier
}

/// The parts with which a run starts from a state, with a hierarchy, which is settled, and a predictor. They take all the
/// memory that they will ever need.
///
/// # Errors
/// `OutOfMemory` where there is too little memory. What was handed in is dropped then.
pub fn start(
    alloc: Global,
    arch: Arch,
    config: &OooConfig,
    hier: Hier,
    predictor: Predictor,
) -> Result<Parts, OutOfMemory>
    requires allowed { IsAllowed config.now }
    requires counts { (references_of hier < 2 ^ 59) × (arch.icnt ≤ 2 ^ 61) }
    ensures fits { IfOk result (λ parts. Fits 0 0 parts) }
    ensures starts { IfOk result (λ parts. Starts config.now arch hier predictor parts) }
{
    let buffers = Buffers::new(alloc, config, arch.pc())?;
    let Buffers {
        unit,
        queue,
        addresses,
        front,
        overlay,
    } = buffers;
    Ok(Parts {
        config: *config,
        unit,
        queue,
        addresses,
        front,
        pools: Pools::new(config.alus, config.mults, config.ports),
        hier: settled(hier),
        predictor,
        arch,
        overlay,
        wrong: false,
    })
}
