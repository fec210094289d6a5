//! The regions of a space, in order, so that a page is looked up by halving.

ghost use Rattle.std.specs.Prelude.{◌≡◌, ◌+◌, ◌<◌, ◌≤◌, ◌&&◌, false, [], ◌∷◌};
ghost use Rattle.std.specs.Prelude.{length, nat_lt, is_some, IfSome, OnOk, OnErr};
ghost use Rattle.std.specs.List.{list_any};
ghost use Rattle.spin_vm.specs.Regions.{has_some, with_region};
ghost use Rattle.spin_vm.specs.Inner.Apart.{AreApart, count_before, last_before};
ghost use Rattle.spin_vm.specs.declared.limits.TheConstants.{PAGES};

use crate::line::Region;
use spin_values::NoMemory;
use std::alloc::Global;
use std::marker::Model;

// Regions by rising start, none of which has a page of another. Contracts see the list of them.
#[derive(Drop)]
pub(crate) struct Regions {
    items: Vec<Region>,
}

impl Model for Regions {
    ghost use Rattle.std.specs.Prelude.{List};
    ghost use Rattle.spin_vm.specs.declared.line.Region.{Region};
    ghost use Rattle.spin_vm.specs.Inner.Apart.{AreApart};

    ghost Value = { List Region };

    ghost view = { λ s. s.items.items };

    ghost invariant = { λ s. AreApart s.items.items };
}

impl Regions {
    // No region.
    pub(crate) fn new(alloc: Global) -> Regions
        ensures { result ≡ [] }
    {
        Regions {
            items: Vec::new(alloc),
        }
    }

    // How many regions there are.
    pub(crate) fn len(&self) -> usize
        ensures { result ≡ length self.now }
    {
        self.items.len()
    }

    // How many regions start before the page.
    fn count_before(&self, page: u64) -> usize
        ensures count { result ≡ count_before page self.now }
        ensures few { result ≤ length self.now }
        ensures apart { AreApart self.now }
    {
        self.items.as_slice().partition_point(
            |region: &Region| -> bool
                ensures { result ≡ nat_lt region.now.start page }
            { region.start < page },
        )
    }

    // The last region that starts before the page.
    fn last_before(&self, page: u64) -> Option<Region>
        ensures last { result ≡ last_before page self.now }
        ensures end { IfSome result (λ r. r.start + r.pages ≤ PAGES) }
        ensures apart { AreApart self.now }
    {
        let count = self.count_before(page);
        if count == 0 {
            return None;
        }
        Some(self.items[count - 1])
    }

    // Whether a region has a page from `from` on that lies before `to`.
    pub(crate) fn have_some(&self, from: u64, to: u64) -> bool
        requires { from < to }
        ensures { result ≡ list_any (has_some from to) self.now }
    {
        match self.last_before(to) {
            None => false,
            Some(region) => from < region.start + region.pages,
        }
    }

    // The region that has the page, if one has it.
    pub(crate) fn at(&self, page: u64) -> Option<Region>
        requires { page < PAGES }
        ensures there { is_some result ≡ list_any (has_some page (page + 1)) self.now }
        ensures writable { IfSome result (λ r. r.writable
            ≡ list_any (λ x. has_some page (page + 1) x && x.writable) self.now) }
    {
        match self.last_before(page + 1) {
            None => None,
            Some(region) => {
                if page < region.start + region.pages {
                    Some(region)
                } else {
                    None
                }
            }
        }
    }

    // Adds a region, which has no page of another. After want of memory nothing is changed. It takes time linear in
    // the regions, of which there are at most 256.
    pub(crate) fn insert(&mut self, region: Region) -> Result<(), NoMemory>
        requires some { 0 < region.pages }
        requires near { region.start + region.pages ≤ PAGES }
        requires apart { list_any (has_some region.start (region.start + region.pages)) self.old
            ≡ false }
        ensures ok { OnOk result (self.new ≡ with_region region self.old) }
        ensures err { OnErr result (self.new ≡ self.old) }
    {
        let at = self.count_before(region.start);
        self.items.insert(at, region)?;
        Ok(())
    }
}
