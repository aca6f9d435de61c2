//! Lists of activities whose capacities are all in the list, and names of resources. No command
//! calls these readers.

use plan_table::{read_table, resource_names};
use std::test::Fail;

// Two activities, the second behind the first, and one resource.
const LIST: &str = "id,name,duration,predecessors,crew
A,Dig,4,,1
B,Pour,6,A,2
capacity,,,,3
";

#[test]
fn reads_a_list(rt: HostRuntime) -> Result<(), Fail> {
    let table = read_table(rt.alloc(), LIST.as_bytes())?;
    let mut activities = table.activities.iter();
    // The activities are numbered from 2.
    for (name, duration, predecessor, need) in [("Dig", 4, None, 1), ("Pour", 6, Some(2), 2)] {
        let Some(activity) = activities.next() else {
            panic!(rt; "{name} isn't in the list");
        };
        assert_eq!(rt; activity.name.as_str(), name);
        assert_eq!(rt; activity.duration, duration, "{name}");
        assert_eq!(rt;
            activity.predecessors.first().copied(),
            predecessor,
            "{name}"
        );
        assert_eq!(rt; activity.needs.as_slice(), [need].as_slice(), "{name}");
    }
    assert!(rt; activities.next().is_none());
    assert_eq!(rt; table.resources.first().map(|crew| crew.capacity), Some(3));
    Ok(())
}

// The end of a project file with names.
const NAMES: &str = "RESOURCEAVAILABILITIES:
R1 R2
3 1
PROJECT INFORMATION:
name 2 Dig
resource 1 crew
resource 2 small digger
";

#[test]
fn finds_the_names_of_resources(rt: HostRuntime) -> Result<(), Fail> {
    let names = resource_names(rt.alloc(), NAMES.as_bytes())?;
    let mut found = names.iter();
    for (number, name) in [(1, "crew"), (2, "small digger")] {
        assert_eq!(rt;
            found.next().map(|line| (line.number, line.name)),
            Some((number, name.as_bytes()))
        );
    }
    assert!(rt; found.next().is_none());
    Ok(())
}
