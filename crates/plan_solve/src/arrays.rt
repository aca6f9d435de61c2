//! Lists of numbers that are read and written at any place.

use std::alloc::{AllocError, Global};

/// The number at a place, 0 if there is none.
pub fn at(list: &[u32], place: u32) -> u32 {
    if (place as usize) < list.len() {
        list[place as usize]
    } else {
        0
    }
}

/// Writes a number at a place, if there is one.
pub fn put(list: &mut Vec<u32>, place: u32, value: u32) {
    if (place as usize) < list.len() {
        list[place as usize] = value;
    }
}

/// Whether a place is marked.
pub fn is_marked(marks: &[bool], place: u32) -> bool {
    (place as usize) < marks.len() && marks[place as usize]
}

/// Marks a place, or takes its mark away.
pub fn mark(marks: &mut Vec<bool>, place: u32, is_marked: bool) {
    if (place as usize) < marks.len() {
        marks[place as usize] = is_marked;
    }
}

/// The row at a place, empty if there is none.
pub fn row(rows: &[Vec<u32>], place: u32) -> &[u32] {
    if (place as usize) < rows.len() {
        rows[place as usize].as_slice()
    } else {
        &[]
    }
}

/// Empty rows.
pub fn empty_rows(alloc: Global, count: usize) -> Result<Vec<Vec<u32>>, AllocError> {
    let mut rows = Vec::with_capacity(alloc, count)?;
    for _ in 0..count {
        rows.push(Vec::new(alloc))?;
    }
    Ok(rows)
}

/// Adds a number to a row, if there is such a row.
pub fn push_to(rows: &mut Vec<Vec<u32>>, place: u32, number: u32) -> Result<(), AllocError> {
    if (place as usize) < rows.len() {
        rows[place as usize].push(number)?;
    }
    Ok(())
}

/// Numbers, none of them twice, that are waiting.
#[derive(Drop)]
pub struct Waiting {
    list: Vec<u32>,
    marks: Vec<bool>,
}

impl Waiting {
    /// None of the numbers below a count.
    pub fn new(alloc: Global, count: usize) -> Result<Waiting, AllocError> {
        Ok(Waiting {
            list: Vec::with_capacity(alloc, count)?,
            marks: vec![in alloc; false; count]?,
        })
    }

    /// Adds a number, unless it is waiting.
    pub fn add(&mut self, number: u32) -> Result<(), AllocError> {
        let place = number as usize;
        if place < self.marks.len() && !self.marks[place] {
            self.list.push(number)?;
            self.marks[place] = true;
        }
        Ok(())
    }

    /// Takes the number out that came last.
    pub fn pop(&mut self) -> Option<u32> {
        let number = self.list.pop()?;
        mark(&mut self.marks, number, false);
        Some(number)
    }

    /// Takes all numbers out.
    pub fn clear(&mut self) {
        for &number in self.list.iter() {
            mark(&mut self.marks, number, false);
        }
        self.list.clear();
    }

    /// Whether no number is waiting.
    pub fn is_empty(&self) -> bool {
        self.list.is_empty()
    }
}
