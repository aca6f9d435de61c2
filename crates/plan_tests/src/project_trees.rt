//! The schedule of a full word of a project's tree.

use crate::six::SIX;
use plan_psplib::{ProjectDoc, read_sm};
use plan_sgs::{Instance, ProjectTree};
use std::alloc::Global;
use std::process::Abort;
use std::test::Fail;

// The activities in the order of their numbers.
const WORD: [u32; 6] = [1, 2, 3, 4, 5, 6];

fn six(rt: &impl Abort, alloc: Global) -> ProjectDoc {
    match read_sm(alloc, SIX.as_bytes()) {
        Ok(project) => project,
        Err(_) => panic!(rt; "the project isn't read"),
    }
}

#[test]
fn each_letter_is_placed_at_its_earliest_start(rt: HostRuntime) -> Result<(), Fail> {
    let project = six(&rt, rt.alloc());
    assert!(rt; project.avail().len() == 1);
    let caps = [2];
    let instance = Instance::of_project(&project, &caps)?;
    let mut tree = ProjectTree::new(rt.alloc(), &instance)?;
    for letter in WORD {
        let mut letters = Vec::new(rt.alloc());
        tree.letters(&mut letters)?;
        assert!(rt; letters.contains(&letter), "{letter}");
        tree.push(letter)?;
    }
    assert!(rt; tree.full());
    let schedule = tree.schedule(rt.alloc())?;
    assert_eq!(rt; schedule.starts.as_slice(), [0, 0, 0, 3, 2, 7].as_slice());
    assert_eq!(rt; schedule.makespan, 7);
    Ok(())
}
