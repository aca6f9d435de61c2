//! Job shops that are read from files.

ghost use Rattle.std.specs.Prelude.{◌≡◌, IfOk, IfErr};
ghost use Rattle.plan_orlib.specs.Says.{Says};
ghost use Rattle.plan_shop.specs.Docs.{shop_of};
ghost use Rattle.plan_gantt.specs.FirstFaults.{TellsFirstShopFault};
ghost use Rattle.plan_errors.specs.Output.{Refuses};

use crate::refusals::file_refusal;
use plan_errors::CliFault;
use plan_orlib::{ShopDoc, read_shop};
use plan_shop::{Shop, ShopFault};
use std::alloc::Global;

/// Reads the job shop of an instance in a file.
pub fn read_instance(alloc: Global, instance: &str, file: &[u8]) -> Result<ShopDoc, CliFault>
    ensures said { IfOk result (Says instance.now file.now) }
    ensures refused { IfErr result (Refuses (TellsFirstShopFault instance.now file.now)) }
{
    read_shop(alloc, file, instance.as_bytes()).map_err(|fault| file_refusal(alloc, &fault, file))
}

/// Returns the job shop of a file with all machines open, so that no closed machine refuses it.
pub fn open_shop(alloc: Global, doc: &ShopDoc) -> Result<Shop, CliFault>
    ensures ok { IfOk result (λ shop. shop ≡ shop_of doc.now) }
    ensures refused { IfErr result (λ e. e ≡ CliFault.Memory) }
{
    let usable = vec![in alloc; true; doc.machines() as usize]?;
    match Shop::of_doc(alloc, doc, &usable) {
        Ok(shop) => Ok(shop),
        Err(ShopFault::NoMemory) => Err(CliFault::Memory),
        Err(_) => unreachable!(),
    }
}
