//! The lines of errors that no command on a file causes: memory, an invalid list, a closed machine,
//! a plan without a calendar.

use plan_exact::ExactFault;
use plan_gantt::{
    exact_fault_text, file_fault_text, missing_calendar, schedule_fault_text, shop_fault_text,
};
use plan_psplib::{FileCode, FileFault};
use plan_sgs::SgsFault;
use plan_shop::ShopFault;
use std::test::Fail;

#[test]
fn tells_a_fault_of_a_file(rt: HostRuntime) -> Result<(), Fail> {
    let alloc = rt.alloc();
    let fault = FileFault {
        code: FileCode::Memory,
        line: 0,
        cycle: Vec::new(alloc),
    };
    assert_eq!(rt; file_fault_text(alloc, &fault)?.as_str(), "E90 memory");
    Ok(())
}

#[test]
fn tells_each_fault_of_a_schedule(rt: HostRuntime) -> Result<(), Fail> {
    let cases = [
        (SgsFault::NotAList, "S2 not a list"),
        (SgsFault::NoMemory, "E90 memory"),
    ];
    for (fault, text) in &cases {
        assert_eq!(rt; schedule_fault_text(rt.alloc(), fault)?.as_str(), *text);
    }
    Ok(())
}

#[test]
fn tells_each_fault_of_a_shop(rt: HostRuntime) -> Result<(), Fail> {
    let cases = [
        (ShopFault::MachineClosed(0), "S4 machine 0 closed"),
        (ShopFault::NoMemory, "E90 memory"),
    ];
    for (fault, text) in &cases {
        assert_eq!(rt; shop_fault_text(rt.alloc(), fault)?.as_str(), *text);
    }
    Ok(())
}

#[test]
fn tells_other_faults(rt: HostRuntime) {
    assert_eq!(rt; exact_fault_text(&ExactFault::NoMemory), "E90 memory");
    assert_eq!(rt; missing_calendar(), "G4 no calendar");
}
