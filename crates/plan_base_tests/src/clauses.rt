//! The clause kernel on two activities that share one resource: each way to prove that 7 is the
//! least makespan.

use plan_kernel::{Absence, Input, Kernel, Lesson, Member, Order, Reason, StartWindow};
use std::test::Fail;

// Activities of 3 and 4 time units that need the one unit of a resource.
fn two_activities(rt: &HostRuntime) -> Result<Input, Fail> {
    let alloc = rt.alloc();
    let mut needs = Vec::new(alloc);
    needs.push(Vec::from_array(alloc, [1])?)?;
    needs.push(Vec::from_array(alloc, [1])?)?;
    Ok(Input {
        durations: Vec::from_array(alloc, [3, 4])?,
        arcs: Vec::new(alloc),
        needs,
        capacities: Vec::from_array(alloc, [1])?,
        orders: Vec::from_array(
            alloc,
            [Order {
                first: 0,
                second: 1,
            }],
        )?,
        windows: Vec::new(alloc),
        absences: Vec::new(alloc),
        tails: Vec::new(alloc),
    })
}

fn two_in_turn(rt: &HostRuntime) -> Result<Kernel, Fail> {
    Ok(Kernel::new(rt.alloc(), two_activities(rt)?)?)
}

// The same two, where the resource is missing from instant 3 to 5.
fn two_with_an_absence(rt: &HostRuntime) -> Result<Input, Fail> {
    let mut input = two_activities(rt)?;
    input.absences.push(Absence {
        resource: 0,
        from: 3,
        until: 5,
        amount: 1,
    })?;
    Ok(input)
}

#[test]
fn an_absence_is_kept_free(rt: HostRuntime) -> Result<(), Fail> {
    let alloc = rt.alloc();
    let mut kernel = Kernel::new(alloc, two_with_an_absence(&rt)?)?;
    assert!(rt;
        !kernel.lower(Vec::from_array(alloc, [0, 3])?),
        "the second meets the absence"
    );
    assert!(rt;
        !kernel.lower(Vec::from_array(alloc, [2, 5])?),
        "the absence begins in the first"
    );
    assert!(rt;
        kernel.lower(Vec::from_array(alloc, [0, 5])?),
        "between them"
    );
    assert_eq!(rt; kernel.upper(), 9);
    let members = [
        Member {
            activity: 0,
            time: 3,
        },
        Member {
            activity: 1,
            time: 4,
        },
    ];
    let window = Reason::Energy {
        resource: 0,
        from: 0,
        until: 8,
        members: &members,
    };
    assert!(rt;
        kernel.begin(window),
        "7 units of work and 2 absent in 8 instants"
    );
    assert!(rt; matches!(kernel.keep(alloc), Ok(Lesson::Refuted)));
    assert!(rt; kernel.is_optimal());
    Ok(())
}

#[test]
fn windows_and_tails_are_kept(rt: HostRuntime) -> Result<(), Fail> {
    let alloc = rt.alloc();
    let mut input = two_activities(&rt)?;
    input.windows.push(StartWindow {
        activity: 0,
        earliest: 4,
        latest: 4,
    })?;
    input.tails.push(10)?;
    let mut kernel = Kernel::new(alloc, input)?;
    assert_eq!(rt;
        kernel.lower_bound(),
        17,
        "the appointment, its duration and its tail"
    );
    assert!(rt;
        !kernel.lower(Vec::from_array(alloc, [5, 0])?),
        "an appointment that moves"
    );
    assert!(rt; kernel.lower(Vec::from_array(alloc, [4, 0])?));
    assert_eq!(rt; kernel.upper(), 17);
    Ok(())
}

#[test]
fn bounds_of_a_start_that_exclude_each_other(rt: HostRuntime) -> Result<(), Fail> {
    let alloc = rt.alloc();
    let mut input = two_activities(&rt)?;
    input.windows.push(StartWindow {
        activity: 1,
        earliest: 6,
        latest: 5,
    })?;
    let mut kernel = Kernel::below(alloc, input, 100)?;
    let start = Reason::Start {
        activity: 1,
        value: 6,
    };
    assert!(rt; kernel.begin(start));
    assert!(rt; matches!(kernel.keep(alloc), Ok(Lesson::Refuted)));
    assert_eq!(rt; kernel.lower_bound(), 100, "no plan costs less");
    Ok(())
}

#[test]
fn energy_proves_the_optimum(rt: HostRuntime) -> Result<(), Fail> {
    let alloc = rt.alloc();
    let mut kernel = two_in_turn(&rt)?;
    assert!(rt;
        !kernel.lower(Vec::from_array(alloc, [0, 2])?),
        "they overlap"
    );
    assert!(rt;
        kernel.lower(Vec::from_array(alloc, [0, 3])?),
        "one after the other"
    );
    assert_eq!(rt; kernel.upper(), 7);
    let members = [
        Member {
            activity: 0,
            time: 3,
        },
        Member {
            activity: 1,
            time: 4,
        },
    ];
    let window = Reason::Energy {
        resource: 0,
        from: 0,
        until: 6,
        members: &members,
    };
    assert!(rt; kernel.begin(window), "7 units of work in 6 instants");
    assert!(rt; matches!(kernel.keep(alloc), Ok(Lesson::Refuted)));
    assert!(rt; kernel.is_optimal());
    assert_eq!(rt; kernel.lower_bound(), 7);
    Ok(())
}

#[test]
fn orders_prove_the_optimum(rt: HostRuntime) -> Result<(), Fail> {
    let alloc = rt.alloc();
    let mut kernel = two_in_turn(&rt)?;
    assert!(rt; kernel.lower(Vec::from_array(alloc, [0, 3])?));
    assert!(rt; kernel.begin(Reason::Before { order: 0, value: 0 }));
    assert_eq!(rt; kernel.touched(), [6].as_slice(), "the order");
    assert!(rt; kernel.resolve(6, Reason::After { order: 0, value: 0 }));
    assert!(rt; matches!(kernel.keep(alloc), Ok(Lesson::Refuted)));
    assert!(rt; kernel.is_optimal());
    Ok(())
}

#[test]
fn the_makespan_has_a_greater_lower_bound(rt: HostRuntime) -> Result<(), Fail> {
    let alloc = rt.alloc();
    let mut kernel = two_in_turn(&rt)?;
    assert_eq!(rt; kernel.lower_bound(), 4, "the longest duration");
    let end = Reason::End {
        activity: 1,
        value: 3,
    };
    assert!(rt; kernel.begin(end), "a start at 3 and a makespan of 6");
    assert!(rt; kernel.resolve(2, Reason::Before { order: 0, value: 0 }));
    assert!(rt; kernel.resolve(6, Reason::After { order: 0, value: 0 }));
    let end = Reason::End {
        activity: 0,
        value: 4,
    };
    assert!(rt; kernel.resolve(1, end), "a start at 4 and a makespan of 6");
    assert!(rt; matches!(kernel.keep(alloc), Ok(Lesson::Fact(4))));
    assert_eq!(rt; kernel.fact(4), 7, "the makespan");
    assert_eq!(rt; kernel.lower_bound(), 7);
    Ok(())
}

#[test]
fn a_clause_is_kept_and_used(rt: HostRuntime) -> Result<(), Fail> {
    let alloc = rt.alloc();
    let mut kernel = two_in_turn(&rt)?;
    assert!(rt; kernel.begin(Reason::Before { order: 0, value: 5 }));
    assert_eq!(rt; kernel.touched().len(), 3);
    assert!(rt; matches!(kernel.keep(alloc), Ok(Lesson::Clause(0))));
    assert_eq!(rt; kernel.clause(0).len(), 3);
    kernel.swap(0, 0, 2);
    assert!(rt; kernel.begin(Reason::Kept(0)));
    assert_eq!(rt; kernel.touched().len(), 3);
    kernel.remove(0);
    assert!(rt; !kernel.begin(Reason::Kept(0)));
    assert_eq!(rt; kernel.literals(), 0);
    Ok(())
}
