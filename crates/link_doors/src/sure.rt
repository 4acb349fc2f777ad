//! A listener that never fails.
ghost use Rattle.std.specs.Prelude.{◌≡◌, ◌++◌, [], false};
ghost use Rattle.link_doors.specs.Memory.{AcceptsNext, TakesBack};

use crate::accepted::Accepted;
use crate::listener::Listener;
use http_link::Link;
use std::marker::Model;

/// A listener in memory that never fails. It gives the links of a list in order, and then ends; it keeps the links that are
/// handed back, and tells what they are then. Contracts see the links that it will give, and those that were handed back.
#[derive(Drop)]
pub struct SureListener<L: Link + Drop> {
    /// The links that it will give, in order, and then those that were handed back, in order.
    links: Vec<L>,
    /// How many of them it will give.
    left: usize,
    is_out: bool,
    has_ended: bool,
}

impl<L: Link + Drop> Model for SureListener<L> {
    ghost use Rattle.std.specs.Prelude.{◌≡◌, ◌<◌, ◌≤◌, true, take, drop, vec_len, vec_capacity};
    ghost use Rattle.link_doors.specs.Memory.{ListedLinks};

    ghost Value = { ListedLinks L };

    ghost view = { λ s. record {
      left = take s.left s.links.items;
      handed = drop s.left s.links.items;
      is_out = s.is_out;
      has_ended = s.has_ended;
    } };

    ghost invariant = { λ s. (s.left ≤ vec_len s.links) × (s.is_out ≡ true → vec_len s.links < vec_capacity s.links) };
}

impl<L: Link + Drop> SureListener<L> {
    /// A listener that will give these links, in order. It does not allocate.
    pub fn new(links: Vec<L>) -> SureListener<L>
        ensures { result ≡ record { left = links.items; handed = []; is_out = false; has_ended = false } }
    {
        let left = links.len();
        SureListener {
            links,
            left,
            is_out: false,
            has_ended: false,
        }
    }

    /// The links that were handed back, in order. It does not allocate.
    pub fn handed(&self) -> &[L]
        ensures { result.now ≡ self.now.handed }
    {
        &self.links[self.left..]
    }

    /// The links that it did not give, in order, and then those that were handed back, in order. It does not allocate.
    pub fn into_links(self) -> Vec<L>
        ensures { result.items ≡ self.left ++ self.handed }
    {
        let SureListener { links, .. } = self;
        links
    }
}

impl<L: Link + Drop> Listener for SureListener<L> {
    type Link = L;

    ghost faults = { λ _. 0 };

    ghost is_out = { λ s. s.is_out };

    ghost has_ended = { λ s. s.has_ended };

    ghost accepted = { AcceptsNext };

    ghost taken_back = { TakesBack };

    fn accept(&mut self) -> Accepted<L> {
        if self.left == 0 {
            self.has_ended = true;
            return Accepted::Ended;
        }
        let link = self.links.remove(0);
        self.left -= 1;
        self.is_out = true;
        Accepted::Link(link)
    }

    fn done(&mut self, link: L) {
        self.links.push_reserved(link);
        self.is_out = false;
    }
}
