//! Small job shops that are read from texts.

use plan_orlib::read_shop;
use plan_psplib::FileCode;
use plan_shop::{Shop, ShopFault};
use std::alloc::Global;
use std::process::Abort;

/// Returns the job shop of a text without names, with two open machines; none if memory runs out.
pub fn shop_of(rt: &impl Abort, alloc: Global, text: &str) -> Option<Shop> {
    let doc = match read_shop(alloc, text.as_bytes(), b"-") {
        Ok(doc) => doc,
        Err(fault) if fault.code == FileCode::Memory => return None,
        Err(_) => panic!(rt; "not read: {text}"),
    };
    let usable = [true, true];
    assert!(rt; doc.machines() as usize == usable.len());
    match Shop::of_doc(alloc, &doc, &usable) {
        Ok(shop) => Some(shop),
        Err(ShopFault::NoMemory) => None,
        Err(_) => panic!(rt; "another fault of a shop: {text}"),
    }
}
