use super::*;
use std::alloc::Global;

/// Reserves the place of bytes and writes them. False where that has no place in memory, or finds
/// none.
fn put(memory: &mut PagedMem, addr: u32, bytes: &[u8]) -> bool {
    if bytes.len() > 0x1_0000 || u64::from(addr) + bytes.len() as u64 > 0x1_0000_0000 {
        return false;
    }
    if memory.reserve(addr, bytes.len() as u32).is_err() {
        return false;
    }
    memory.write(addr, bytes);
    true
}

/// Writes bytes at each of these addresses, in turn.
fn put_each(memory: &mut PagedMem, writes: &[(u32, &[u8])]) -> bool {
    for (addr, bytes) in writes {
        if !put(memory, *addr, bytes) {
            return false;
        }
    }
    true
}

/// Reserves these ranges of addresses, each a first one and a length, in turn.
fn reserve_each(memory: &mut PagedMem, ranges: &[(u32, u32)]) -> bool {
    for (addr, len) in ranges {
        if u64::from(*addr) + u64::from(*len) > 0x1_0000_0000
            || memory.reserve(*addr, *len).is_err()
        {
            return false;
        }
    }
    true
}

/// Whether each of these addresses holds this byte.
fn holds(memory: &PagedMem, rows: &[(u32, u8)]) -> bool {
    rows.iter().all(|(addr, want)| memory.byte(*addr) == *want)
}

/// Whether from each of these addresses on there are these two bytes.
fn holds_halves(memory: &PagedMem, rows: &[(u32, [u8; 2])]) -> bool {
    for (addr, want) in rows {
        if *addr > 0xffff_fffe || memory.half_bytes(*addr) != *want {
            return false;
        }
    }
    true
}

/// Whether from each of these addresses on there are these four bytes.
fn holds_words(memory: &PagedMem, rows: &[(u32, [u8; 4])]) -> bool {
    for (addr, want) in rows {
        if *addr > 0xffff_fffc || memory.word_bytes(*addr) != *want {
            return false;
        }
    }
    true
}

/// Whether each of these ranges is reserved, or isn't.
fn reserves(memory: &PagedMem, rows: &[(u32, u32, bool)]) -> bool {
    for (addr, len, want) in rows {
        if u64::from(*addr) + u64::from(*len) > 0x1_0000_0000
            || memory.reserved(*addr, *len) != *want
        {
            return false;
        }
    }
    true
}

/// Whether from each of these numbers on this page is found.
fn finds(memory: &PagedMem, rows: &[(u32, Option<u32>)]) -> bool {
    rows.iter()
        .all(|(from, want)| memory.page_from(*from) == *want)
}

/// Whether each of these pages has so many bytes, or was never reserved.
fn has_pages(memory: &PagedMem, rows: &[(u32, Option<usize>)]) -> bool {
    rows.iter().all(|(number, want)| memory.page(*number).map(|bytes| bytes.len()) == *want)
}

#[test]
fn bytes_are_read_where_they_were_written(rt: HostRuntime) {
    let mut memory = PagedMem::new(rt.alloc());
    let agrees = put_each(
        &mut memory,
        &[
            (0x0000_0ffe, &[1, 2, 3, 4]),
            (0x0000_1001, &[5]),
            (0xffff_fffe, &[6, 7]),
            (0x1000_0000, &[]),
        ],
    ) && holds(
        &memory,
        &[
            (0x0000_0000, 0),
            (0x0000_0ffd, 0),
            (0x0000_0ffe, 1),
            (0x0000_0fff, 2),
            (0x0000_1000, 3),
            (0x0000_1001, 5),
            (0x0000_1002, 0),
            (0x1000_0000, 0),
            (0xffff_fffd, 0),
            (0xffff_fffe, 6),
            (0xffff_ffff, 7),
        ],
    );
    assert!(rt; agrees);
}

#[test]
fn the_last_page_is_found_behind_the_first_two(rt: HostRuntime) {
    let mut memory = PagedMem::new(rt.alloc());
    let agrees = put_each(
        &mut memory,
        &[
            (0x0000_0fff, &[1]),
            (0x0000_1000, &[2]),
            (0xffff_ffff, &[3]),
        ],
    ) && holds(
        &memory,
        &[
            (0x0000_0000, 0),
            (0x0000_0fff, 1),
            (0x0000_1000, 2),
            (0xffff_f000, 0),
            (0xffff_ffff, 3),
        ],
    ) && finds(&memory, &[(0, Some(0)), (1, Some(1)), (2, Some(0xf_ffff))]);
    assert!(rt; agrees);
}

#[test]
fn halves_and_words_are_read_across_pages_and_leaves(rt: HostRuntime) {
    let mut memory = PagedMem::new(rt.alloc());
    let agrees = put_each(
        &mut memory,
        &[
            (0x0000_0ffd, &[1, 2, 3, 4, 5, 6]),
            (0x003f_fffe, &[7, 8, 9, 10]),
            (0xffff_fffc, &[11, 12, 13, 14]),
        ],
    ) && holds_halves(
        &memory,
        &[
            (0x0000_0ffe, [2, 3]),
            (0x0000_0fff, [3, 4]),
            (0x0000_1000, [4, 5]),
            (0x0000_1fff, [0, 0]),
            (0x003f_ffff, [8, 9]),
            (0x0040_0fff, [0, 0]),
            (0xffff_fffe, [13, 14]),
        ],
    ) && holds_words(
        &memory,
        &[
            (0x0000_0ffc, [0, 1, 2, 3]),
            (0x0000_0ffd, [1, 2, 3, 4]),
            (0x0000_0ffe, [2, 3, 4, 5]),
            (0x0000_0fff, [3, 4, 5, 6]),
            (0x0000_1000, [4, 5, 6, 0]),
            (0x003f_fffd, [0, 7, 8, 9]),
            (0x0040_0000, [9, 10, 0, 0]),
            (0x7fff_fffe, [0, 0, 0, 0]),
            (0xffff_fffc, [11, 12, 13, 14]),
        ],
    );
    assert!(rt; agrees);
}

#[test]
fn pages_are_reserved_over_two_leaves(rt: HostRuntime) {
    let mut memory = PagedMem::new(rt.alloc());
    let agrees = reserve_each(&mut memory, &[(0x003f_e800, 0x3000)])
        && reserves(
            &memory,
            &[
                (0x003f_e000, 0x4000, true),
                (0x003f_ffff, 2, true),
                (0x003f_ffff, 4, true),
                (0x003f_dfff, 1, false),
                (0x003f_dfff, 2, false),
                (0x0040_2000, 1, false),
                (0x0040_1fff, 2, false),
                (0x007f_ffff, 1, false),
            ],
        )
        && put_each(&mut memory, &[(0x003f_ffff, &[1, 2])])
        && holds(&memory, &[(0x003f_ffff, 1), (0x0040_0000, 2), (0, 0)]);
    assert!(rt; agrees);
}

/// Writes one byte at so many addresses in one call.
fn put_repeated(alloc: Global, memory: &mut PagedMem, addr: u32, byte: u8, count: usize) -> bool {
    match vec![in alloc; byte; count] {
        Ok(bytes) => put(memory, addr, bytes.as_slice()),
        Err(_) => false,
    }
}

#[test]
fn a_long_write_goes_over_several_pages(rt: HostRuntime) {
    let mut memory = PagedMem::new(rt.alloc());
    let agrees = put_repeated(rt.alloc(), &mut memory, 0x0004_0fff, 0xa5, 8194)
        && holds(
            &memory,
            &[
                (0x0004_0ffe, 0),
                (0x0004_0fff, 0xa5),
                (0x0004_1000, 0xa5),
                (0x0004_2fff, 0xa5),
                (0x0004_3000, 0xa5),
                (0x0004_3001, 0),
            ],
        )
        && reserves(
            &memory,
            &[
                (0x0004_0000, 0x4000, true),
                (0x0003_ffff, 1, false),
                (0x0004_0000, 0x4001, false),
            ],
        );
    assert!(rt; agrees);
}

#[test]
fn the_next_page_with_a_byte_is_found_over_gaps(rt: HostRuntime) {
    let mut memory = PagedMem::new(rt.alloc());
    let agrees = finds(&memory, &[(0, None)])
        && put_each(
            &mut memory,
            &[
                (0x0000_0fff, &[1]),
                (0x0000_1000, &[1]),
                (0x0000_5000, &[0, 0, 0, 0]),
                (0x0000_9fff, &[8]),
                (0xffff_ffff, &[1]),
            ],
        )
        && finds(
            &memory,
            &[
                (0, Some(0)),
                (1, Some(1)),
                (2, Some(9)),
                (5, Some(9)),
                (9, Some(9)),
                (10, Some(0xf_ffff)),
                (0xf_ffff, Some(0xf_ffff)),
                (0x10_0000, None),
                (0xffff_ffff, None),
            ],
        );
    assert!(rt; agrees);
}

#[test]
fn pages_are_reserved_by_the_range_that_meets_them(rt: HostRuntime) {
    let mut memory = PagedMem::new(rt.alloc());
    let agrees = reserve_each(
        &mut memory,
        &[(0x0000_1fff, 2), (0xffff_f000, 0x1000), (0x0000_7001, 0)],
    ) && reserves(
        &memory,
        &[
            (0x0000_1000, 0x2000, true),
            (0x0000_0fff, 2, false),
            (0x0000_2fff, 2, false),
            (0x0000_7001, 1, false),
            (0x0000_7001, 0, true),
            (0xffff_ffff, 1, true),
            (0xffff_efff, 2, false),
        ],
    ) && has_pages(
        &memory,
        &[
            (0, None),
            (1, Some(4096)),
            (2, Some(4096)),
            (3, None),
            (7, None),
            (0x10_0001, None),
        ],
    );
    assert!(rt; agrees);
}

/// A clone of this memory has its bytes and pages, and a write to the clone leaves the memory.
fn clones(memory: &PagedMem) -> bool {
    let Ok(mut clone) = memory.try_clone() else {
        return false;
    };
    put(&mut clone, 0x0040_0001, &[9])
        && holds(
            &clone,
            &[(0x0040_0000, 1), (0x0040_0001, 9), (0x0050_0000, 0)],
        )
        && reserves(
            &clone,
            &[(0x0050_0000, 0x1000, true), (0x0050_0000, 0x1001, false)],
        )
}

#[test]
fn a_clone_has_the_bytes_and_pages_and_goes_its_own_way(rt: HostRuntime) {
    let mut memory = PagedMem::new(rt.alloc());
    let agrees = put_each(&mut memory, &[(0x0040_0000, &[1, 2])])
        && reserve_each(&mut memory, &[(0x0050_0000, 1)])
        && clones(&memory)
        && holds(
            &memory,
            &[(0x0040_0000, 1), (0x0040_0001, 2), (0x0050_0000, 0)],
        );
    assert!(rt; agrees);
    memory.equal_where_read_alike(&memory);
}
