//! Addresses of loads and stores that go in order.
use crate::{Addresses, MemoryRow};
use std::alloc::Global;

/// Whether two rows that enter a ring for four are found until they leave, and others are not.
fn are_found(alloc: Global) -> bool {
    let mut addresses = match Addresses::new(alloc, 4) {
        Ok(addresses) => addresses,
        Err(_) => return false,
    };
    let row = |row, addr| MemoryRow {
        row,
        store: false,
        addr,
    };
    addresses.push(row(3, 0x1000_0008));
    addresses.push(row(7, 0x1000_0010));
    let both = addresses.address_of(3) == 0x1000_0008 && addresses.address_of(7) == 0x1000_0010;
    addresses.squash_after(3);
    let first = addresses.len() == 1 && addresses.address_of(7) == 0;
    addresses.retire();
    both && first && addresses.get(0).is_none()
}

#[test]
fn addresses_are_held_from_entry_to_leave(rt: HostRuntime) {
    let found = are_found(rt.alloc());
    assert!(rt; found);
}
