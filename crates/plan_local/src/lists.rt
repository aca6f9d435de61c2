//! Lists of numbers that are read and written at any index.

/// Stands for a step that doesn't exist.
pub const NONE: u32 = u32::MAX;

/// Returns the number at an index, 0 if there is none.
pub fn at(list: &[u32], index: u32) -> u32 {
    if (index as usize) < list.len() {
        list[index as usize]
    } else {
        0
    }
}

/// Writes a number at an index, if the list is that long.
pub fn put(list: &mut Vec<u32>, index: u32, value: u32) {
    if (index as usize) < list.len() {
        list[index as usize] = value;
    }
}
