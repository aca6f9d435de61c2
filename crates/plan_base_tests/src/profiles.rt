//! A worked example of a resource profile.
ghost use Rattle.std.specs.Prelude.{◌≡◌, ◌+◌, ◌<◌, ◌≤◌, length};
ghost use Rattle.plan_profile.specs.InUse.{capacities};

use plan_profile::{END, Profile};
use std::process::Abort;
use std::test::Fail;

fn put(
    rt: &impl Abort,
    profile: &mut Profile,
    start: u64,
    d: u64,
    needs: &[u64],
) -> Result<(), Fail>
    requires end { start + d ≤ END }
    requires needs { length needs.now ≡ length (capacities profile.old) }
    ensures { capacities profile.new ≡ capacities profile.old }
{
    assert!(rt; profile.fits(start, d, needs), "{d} from {start} on");
    profile.place(start, d, needs)?;
    Ok(())
}

#[test]
fn follows_the_worked_example(rt: HostRuntime) -> Result<(), Fail> {
    let alloc = rt.alloc();
    let mut profile = Profile::new(alloc, Vec::from_array(alloc, [2])?)?;
    put(&rt, &mut profile, 0, 3, &[1])?;
    put(&rt, &mut profile, 3, 4, &[2])?;
    assert_eq!(rt; profile.usage(2, 1), 1);
    for (from, d, need, least) in [(0, 2, 1, 0), (2, 2, 1, 7), (0, 3, 2, 7), (5, 0, 2, 5)] {
        assert!(rt; profile.fits_empty(&[need]));
        assert_eq!(rt;
            profile.earliest(from, d, &[need]),
            least,
            "{d} from {from} on"
        );
    }
    assert_eq!(rt; profile.changes(), [0, 3, 7].as_slice());
    let mut other = profile.copy()?;
    put(&rt, &mut other, 0, 3, &[1])?;
    assert_eq!(rt; other.changes(), [0, 7].as_slice());
    assert_eq!(rt; profile.changes(), [0, 3, 7].as_slice());
    Ok(())
}
