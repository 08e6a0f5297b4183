//! How many cycles pass at most until an instruction commits.
ghost use Rattle.std.specs.Prelude.{◌≡◌};
ghost use Rattle.mem_hier.specs.Replay.{greatest_fetch_of, greatest_load_of};
ghost use Rattle.mem_hier.specs.Stands.{config_of};
ghost use Rattle.ooo_table.specs.Bound.{bound_of};

use crate::config::OooConfig;
use mem_hier::Hier;

/// K: within so many cycles an instruction commits or the machine stops.
pub fn bound(config: &OooConfig, hier: &Hier) -> u64
    ensures { result ≡ bound_of config.now.penalty (greatest_fetch_of (config_of hier.now)) (greatest_load_of (config_of hier.now)) }
{
    let penalty: u32 = config.penalty;
    let fetch: u32 = hier.greatest_fetch();
    let load: u32 = hier.greatest_load();
    u64::from(penalty) + u64::from(fetch) + u64::from(load) + 20 + 3 * 19 + 16
}
