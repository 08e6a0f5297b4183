//! The parts.
use crate::addresses::Addresses;
use bpred_unit::Predictor;
use fu_pool::Pools;
use lsq_core::Lsq;
use mem_hier::Hier;
use ooo_front::Front;
use ooo_table::OooConfig;
use ruu_core::Ruu;
use sim_safe::Arch;
use spec_state::Overlay;

/// All that a core holds between two stages of a cycle.
#[derive(Drop)]
pub struct Parts {
    pub config: OooConfig,
    /// The live rows.
    pub unit: Ruu,
    /// Those of them that are loads and stores, and not inert.
    pub queue: Lsq,
    /// The same loads and stores with their effective addresses.
    pub addresses: Addresses,
    /// The waiting rows, and where fetching goes on.
    pub front: Front,
    pub pools: Pools,
    pub hier: Hier,
    pub predictor: Predictor,
    /// The state after the last dispatched right row.
    pub arch: Arch,
    /// What the wrong rows behind that row wrote over it.
    pub overlay: Overlay,
    /// The next row to be dispatched is wrong.
    pub wrong: bool,
}
