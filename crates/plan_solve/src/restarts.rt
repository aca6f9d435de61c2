//! When a search begins again with what was learned.

/// How many conflicts a search may have before it begins again, in units of the sequence.
const BASE: u64 = 100;

/// One search of so many aims at a greater lower bound, the others at a shorter schedule.
const RAISING: u32 = 4;

// The sequence 1, 1, 2, 1, 1, 2, 4, .. (Luby, Sinclair and Zuckerman 1993) at a place from 0 on.
fn luby(place: u32) -> u64 {
    let mut left = place;
    for _ in 0..32 {
        let mut size: u32 = 1;
        for _ in 0..32 {
            if size > left {
                break;
            }
            size = size.saturating_mul(2).saturating_add(1);
        }
        if left.saturating_add(1) == size {
            return (size / 2) as u64 + 1;
        }
        left = left.saturating_sub(size / 2);
    }
    1
}

/// How many conflicts a search may have before it begins again.
pub fn patience(place: u32) -> u64 {
    luby(place).saturating_mul(BASE)
}

/// Whether a search aims at a greater lower bound.
pub fn is_raising(place: u32) -> bool {
    place % RAISING == 0
}
