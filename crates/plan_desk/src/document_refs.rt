//! Documents that are kept elsewhere or new.

ghost use Rattle.std.specs.Prelude.{◌≡◌};
ghost use Rattle.plan_psplib.specs.Project.{IsProject};
ghost use Rattle.plan_orlib.specs.Shop.{IsShop};

use plan_net::Network;
use plan_orlib::ShopDoc;
use plan_psplib::ProjectDoc;
use std::marker::Model;

#[derive(Drop)]
enum HeldProject<'f> {
    Kept(&'f ProjectDoc),
    New(ProjectDoc),
}

// A project that is kept elsewhere or new. Contracts see the project.
#[derive(Drop)]
pub(crate) struct ProjectRef<'f> {
    held: HeldProject<'f>,
}

impl<'f> Model for ProjectRef<'f> {
    ghost use Rattle.plan_psplib.specs.Project.{Project};
    ghost use Rattle.plan_desk.specs.HeldDocuments.{project_held};

    ghost Value = { Project };

    ghost view = { λ r. project_held r.held };
}

impl<'f> ProjectRef<'f> {
    pub(crate) fn kept(document: &'f ProjectDoc) -> ProjectRef<'f>
        ensures { result ≡ document.now }
    {
        ProjectRef {
            held: HeldProject::Kept(document),
        }
    }

    pub(crate) fn new(document: ProjectDoc) -> ProjectRef<'f>
        ensures { result ≡ document }
    {
        ProjectRef {
            held: HeldProject::New(document),
        }
    }

    pub(crate) fn document(&self) -> &ProjectDoc
        ensures { result.now ≡ self.now }
    {
        match &self.held {
            HeldProject::Kept(document) => *document,
            HeldProject::New(document) => document,
        }
    }

    pub(crate) fn network(&self) -> &Network
        ensures network { result.now ≡ self.now.network }
        ensures project { IsProject self.now }
    {
        self.document().network()
    }

    pub(crate) fn avail(&self) -> &[u64]
        ensures { result.now ≡ self.now.available }
    {
        self.document().avail()
    }
}

#[derive(Drop)]
enum HeldShop<'f> {
    Kept(&'f ShopDoc),
    New(ShopDoc),
}

// A shop that is kept elsewhere or new. Contracts see the shop.
#[derive(Drop)]
pub(crate) struct ShopRef<'f> {
    held: HeldShop<'f>,
}

impl<'f> Model for ShopRef<'f> {
    ghost use Rattle.plan_orlib.specs.Shop.{Shop};
    ghost use Rattle.plan_desk.specs.HeldDocuments.{shop_held};

    ghost Value = { Shop };

    ghost view = { λ r. shop_held r.held };
}

impl<'f> ShopRef<'f> {
    pub(crate) fn kept(document: &'f ShopDoc) -> ShopRef<'f>
        ensures { result ≡ document.now }
    {
        ShopRef {
            held: HeldShop::Kept(document),
        }
    }

    pub(crate) fn new(document: ShopDoc) -> ShopRef<'f>
        ensures { result ≡ document }
    {
        ShopRef {
            held: HeldShop::New(document),
        }
    }

    pub(crate) fn document(&self) -> &ShopDoc
        ensures { result.now ≡ self.now }
    {
        match &self.held {
            HeldShop::Kept(document) => *document,
            HeldShop::New(document) => document,
        }
    }

    pub(crate) fn machines(&self) -> u32
        ensures value { result ≡ self.now.machines }
        ensures shop { IsShop self.now }
    {
        self.document().machines()
    }
}
