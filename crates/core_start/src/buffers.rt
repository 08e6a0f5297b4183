//! The parts that take memory, each with the size that the configuration says.
ghost use Rattle.std.specs.Prelude.{◌≡◌, ◌≤◌, IfOk};
ghost use Rattle.ooo_front.specs.Stands.{started};
ghost use Rattle.core_start.specs.Start.{AreEmpty, IsClean};

use core_parts::Addresses;
use lsq_core::Lsq;
use ooo_front::Front;
use ooo_table::OooConfig;
use ruu_core::Ruu;
use spec_state::Overlay;
use ss_base::OutOfMemory;
use std::alloc::Global;

/// Room for live rows, for waiting rows, and for what wrong rows write.
#[derive(Drop)]
pub struct Buffers {
    pub unit: Ruu,
    pub queue: Lsq,
    pub addresses: Addresses,
    pub front: Front,
    pub overlay: Overlay,
}

impl Buffers {
    /// Empty buffers, where fetching begins at an address.
    pub fn new(alloc: Global, config: &OooConfig, pc: u32) -> Result<Buffers, OutOfMemory>
        requires { config.now.decode ≤ 32 }
        ensures live { IfOk result (λ b. AreEmpty config.now b.unit b.queue b.addresses) }
        ensures front { IfOk result (λ b. b.front ≡ started config.now.ifq config.now.decode pc) }
        ensures overlay { IfOk result (λ b. IsClean config.now b.overlay) }
    {
        Ok(Buffers {
            unit: Ruu::new(alloc, config.ruu)?,
            queue: Lsq::new(alloc, config.lsq)?,
            addresses: Addresses::new(alloc, config.lsq)?,
            front: Front::new(alloc, config.ifq, config.decode, pc)?,
            overlay: Overlay::new(alloc, config.ruu)?,
        })
    }
}
