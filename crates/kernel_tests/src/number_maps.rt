//! The calls of a number map by example.
use maps::NumMap;
use std::alloc::AllocFailed;

// Entries that are put in, one after another, and what was at each one's key before.
const ENTRIES: &[(u64, u64, Option<u64>)] = &[
    (7, 70, None),
    (3, 0, None),
    (9, 0, None),
    (7, 71, Some(70)),
];

// Numbers, and the first key from each on.
const FIRST_FROM: &[(u64, Option<u64>)] = &[
    (0, Some(3)),
    (3, Some(3)),
    (4, Some(7)),
    (9, Some(9)),
    (10, None),
    (u64::MAX, None),
];

// The answers of `read`, and those of `change` after it.
type Read = (usize, bool, Option<u64>, bool, [Option<u64>; 2]);

type Changed = (Option<u64>, Option<(u64, u64)>, Option<u64>, bool);

const READ: Read = (3, false, Some(71), true, [Some(3), Some(7)]);

const CHANGED: Changed = (Some(0), Some((3, 30)), Some(90), true);

// Puts 90 in place of what is at 9.
fn replace_at_9(map: &mut NumMap<u64>) -> Option<u64> {
    if map.contains(9) {
        Some(map.replace(9, 90))
    } else {
        None
    }
}

// Writes 30 over what is at 3.
fn write_at_3(map: &mut NumMap<u64>) {
    if map.contains(3) {
        *map.get_mut(3) = 30;
    }
}

// Its length, whether it is empty, the value at 7, whether there is one at 9, the first key of a 0, and the first of more
// than 70.
fn read(map: &NumMap<u64>) -> Read {
    (
        map.len(),
        map.is_empty(),
        map.get(7).copied(),
        map.contains(9),
        [map.first_zero(), map.first_where(|value| *value > 70)],
    )
}

// What 90 replaces, the least entry once 30 is written, what is taken out at 9, and whether the map is empty in the end.
fn change(map: &mut NumMap<u64>) -> Changed {
    let replaced = replace_at_9(map);
    write_at_3(map);
    let first = map.pop_first();
    let removed = map.remove(9);
    map.clear();
    (replaced, first, removed, map.is_empty())
}

#[test]
fn each_call(rt: HostRuntime) -> Result<(), AllocFailed<(u64, u64)>> {
    let mut map = NumMap::new(rt.alloc());
    for (key, value, before) in ENTRIES {
        assert_eq!(rt; map.insert(*key, *value)?, *before, "at {key}");
    }
    for (key, first) in FIRST_FROM {
        assert_eq!(rt; map.first_from(*key), *first, "from {key}");
    }
    let read = read(&map);
    assert_eq!(rt; (read, change(&mut map)), (READ, CHANGED));
    Ok(())
}
