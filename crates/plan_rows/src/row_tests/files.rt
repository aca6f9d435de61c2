//! The contents of the files of plans.

ghost use Rattle.std.specs.Prelude.{IfOk};
ghost use Rattle.plan_rows.specs.declared.kinds.PlanKind.TheVariants.{Project, Shop};
ghost use Rattle.plan_rows.specs.RowTests.{FileTold};

use crate::kinds::PlanKind;
use plan_net::Network;
use plan_orlib::read_shop;
use plan_psplib::{FileCode, read_sm};
use std::alloc::{AllocError, Global};

/// The contents of a plan's file: the number of places, and the network of a project.
#[derive(Drop)]
pub struct PlanFile {
    pub places: u64,
    pub network: Option<Network>,
}

// Reads the file of a project.
fn read_project(alloc: Global, name: &str, body: &[u8]) -> Result<Option<PlanFile>, AllocError>
    ensures { IfOk result (FileTold Project name.now body.now) }
{
    match read_sm(alloc, body) {
        Ok(project) => {
            let (network, _, available) = project.into_parts();
            Ok(Some(PlanFile {
                places: available.len() as u64,
                network: Some(network),
            }))
        }
        Err(fault) => match fault.code {
            FileCode::Memory => Err(AllocError),
            _ => Ok(None),
        },
    }
}

// Reads the file of a shop.
fn read_instance(alloc: Global, name: &str, body: &[u8]) -> Result<Option<PlanFile>, AllocError>
    ensures { IfOk result (FileTold Shop name.now body.now) }
{
    match read_shop(alloc, body, name.as_bytes()) {
        Ok(shop) => Ok(Some(PlanFile {
            places: u64::from(shop.machines()),
            network: None,
        })),
        Err(fault) => match fault.code {
            FileCode::Memory => Err(AllocError),
            _ => Ok(None),
        },
    }
}

/// Reads the file of a plan. It returns `None` if the file is invalid.
pub fn read_file(
    alloc: Global,
    kind: PlanKind,
    name: &str,
    body: &[u8],
) -> Result<Option<PlanFile>, AllocError>
    ensures { IfOk result (FileTold kind name.now body.now) }
{
    match kind {
        PlanKind::Project => read_project(alloc, name, body),
        PlanKind::Shop => read_instance(alloc, name, body),
    }
}
