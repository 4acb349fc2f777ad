//! A listener of which some calls fail.
ghost use Rattle.std.specs.Prelude.{◌≡◌, ◌+◌, ◌-◌, ◌^◌, ◌↔◌, ◌++◌, [], false, min, IsErr, Contains};
ghost use Rattle.bt_base.specs.Causes.{HasCause};
ghost use Rattle.link_doors.specs.Memory.{CountsFault, AcceptsOrFails, TakesBackUncounted};

use crate::accepted::Accepted;
use crate::listener::Listener;
use crate::sure::SureListener;
use byte_streams::Failed;
use http_link::Link;
use std::marker::Model;

/// A listener in memory of which the calls of given numbers fail, and no others. It gives the links of a list in order, and then
/// ends; it keeps the links that are handed back, and tells what they are then. Contracts see what a listener that never fails
/// shows, the numbers of the calls that fail, and how many calls were made and failed.
#[derive(Drop)]
pub struct MemoryListener<L: Link + Drop> {
    inner: SureListener<L>,
    fails: Vec<u64>,
    calls: u64,
    faults: u64,
}

impl<L: Link + Drop> Model for MemoryListener<L> {
    ghost use Rattle.link_doors.specs.Memory.{FailingLinks};

    ghost Value = { FailingLinks L };

    ghost view = { λ s. record { inner = s.inner; fails = s.fails.items; calls = s.calls; faults = s.faults } };
}

impl<L: Link + Drop> MemoryListener<L> {
    /// A listener that will give these links, in order. The calls of `accept` of the numbers in `fails` fail, counted from 1. It
    /// does not allocate.
    pub fn new(links: Vec<L>, fails: Vec<u64>) -> MemoryListener<L>
        ensures { result ≡ record {
          inner = record { left = links.items; handed = []; is_out = false; has_ended = false };
          fails = fails.items;
          calls = 0;
          faults = 0;
        } }
    {
        MemoryListener {
            inner: SureListener::new(links),
            fails,
            calls: 0,
            faults: 0,
        }
    }

    /// The links that were handed back, in order. It does not allocate.
    pub fn handed(&self) -> &[L]
        ensures { result.now ≡ self.now.inner.handed }
    {
        self.inner.handed()
    }

    /// The links that it did not give, in order, and then those that were handed back, in order. It does not allocate.
    pub fn into_links(self) -> Vec<L>
        ensures { result.items ≡ self.inner.left ++ self.inner.handed }
    {
        let MemoryListener { inner, fails, .. } = self;
        drop(fails);
        inner.into_links()
    }

    /// Counts a call, and a fault if it is one that fails.
    fn count_call(&mut self) -> Result<(), Failed>
        ensures same_inner { self.new.inner ≡ self.old.inner }
        ensures same_fails { self.new.fails ≡ self.old.fails }
        ensures counted { self.new.calls ≡ min (self.old.calls + 1) (2 ^ 64 - 1) }
        ensures listed { IsErr result ↔ Contains self.old.fails self.new.calls }
        ensures faults { CountsFault self.old.faults self.new.faults result }
        ensures cause { HasCause self.old.faults self.new.faults result }
    {
        self.calls = self.calls.saturating_add(1);
        if self.fails.contains(&self.calls) {
            self.faults = self.faults.saturating_add(1);
            return Err(Failed);
        }
        Ok(())
    }
}

impl<L: Link + Drop> Listener for MemoryListener<L> {
    type Link = L;

    ghost faults = { λ s. s.faults };

    ghost is_out = { λ s. s.inner.is_out };

    ghost has_ended = { λ s. s.inner.has_ended };

    ghost accepted = { AcceptsOrFails };

    ghost taken_back = { TakesBackUncounted };

    /// `Failed` exactly if the number of the call is listed; then no link leaves the list.
    fn accept(&mut self) -> Accepted<L> {
        match self.count_call() {
            Ok(()) => self.inner.accept(),
            Err(Failed) => Accepted::Failed,
        }
    }

    fn done(&mut self, link: L) {
        self.inner.done(link);
    }
}
