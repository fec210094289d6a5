//! A space: its regions and its mapped pages.

ghost use Rattle.std.specs.Prelude.{◌≡◌, ◌+◌, ◌<◌, ◌≤◌, false, None, is_some, length, OnOk};
ghost use Rattle.std.specs.List.{list_any};
ghost use Rattle.spin_vm.specs.declared.limits.TheConstants.{PAGES};
ghost use Rattle.spin_vm.specs.Regions.{has_some, with_region};
ghost use Rattle.spin_vm.specs.Spaces as specs;
ghost use Rattle.spin_vm.specs.Spaces.{empty_space, frame_at, with_page, without_page};

use crate::fault::Fault;
use crate::line::Region;
use crate::regions::Regions;
use spin_values::NoMemory;
use std::alloc::Global;
use std::collections::BTreeMap;
use std::marker::Model;

// A space: its regions, and its mapped pages with their frames.
#[derive(Drop)]
pub(crate) struct Space {
    regions: Regions,
    pages: BTreeMap<u64, u16>,
}

impl Model for Space {
    ghost use Rattle.spin_vm.specs.Spaces as specs;

    ghost Value = { specs.Space };

    ghost view = { λ s. record { regions = s.regions; pages = s.pages.entries } };
}

impl Space {
    // A space without regions, in which no page is mapped.
    pub(crate) fn new(alloc: Global) -> Space
        ensures { result ≡ empty_space }
    {
        Space {
            regions: Regions::new(alloc),
            pages: BTreeMap::new(alloc),
        }
    }

    // How many pages are mapped.
    pub(crate) fn mapped(&self) -> usize
        ensures { result ≡ length self.now.pages }
    {
        self.pages.len()
    }

    // Adds a region, which has no page of another.
    pub(crate) fn add(&mut self, region: Region) -> Result<(), NoMemory>
        requires some { 0 < region.pages }
        requires near { region.start + region.pages ≤ PAGES }
        requires apart { list_any (has_some region.start (region.start + region.pages))
            self.old.regions
            ≡ false }
        ensures { OnOk result (self.new
            ≡ record self.old { regions = with_region region self.old.regions }) }
    {
        self.regions.insert(region)
    }

    // Takes the page out of the map; whether it was mapped.
    pub(crate) fn unmap(&mut self, page: u64) -> bool
        ensures was { result ≡ is_some (frame_at page self.old.pages) }
        ensures pages { self.new ≡ record self.old { pages = without_page page self.old.pages } }
        ensures fewer { length self.new.pages ≤ length self.old.pages }
    {
        self.pages.remove(&page).is_some()
    }

    // Maps a page to a frame, if there is one.
    pub(crate) fn map(&mut self, page: u64, frame: Option<u16>) -> Result<(), NoMemory>
        ensures pages { OnOk result (self.new
            ≡ record self.old { pages = with_page page frame self.old.pages }) }
        ensures more { OnOk result (length self.new.pages ≤ length self.old.pages + 1) }
    {
        if let Some(frame) = frame {
            self.pages.insert(page, frame)?;
        }
        Ok(())
    }

    // The frame of an access to the page, or its fault. It takes time logarithmic in the regions and in the mapped
    // pages.
    pub(crate) fn look_up(&self, page: u64, write: bool) -> Result<u16, Fault>
        requires { page < PAGES }
        ensures { result ≡ specs.look_up self.now page write }
    {
        let Some(region) = self.regions.at(page) else {
            return Err(Fault::BadAddress);
        };
        if write && !region.writable {
            return Err(Fault::ProtectionFault);
        }
        match self.pages.get(&page) {
            Some(frame) => Ok(*frame),
            None => Err(Fault::PageNotPresent),
        }
    }
}
