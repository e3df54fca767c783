//! A link in memory, whose exchanges of given numbers fail.
ghost use Rattle.std.specs.Prelude.{◌≡◌};
ghost use Rattle.outside.specs.Links.{Exchanges};
ghost use Rattle.gnap_io.specs.MemoryForms.{unasked_link, ExchangesByPlan};

use crate::fault_plan::FaultPlan;
use bytes_and_lists::bytes::Bytes;
use bytes_and_lists::memory::Duplicate;
use outside::link::{Link, LinkFault};
use std::marker::Model;

/// Replies that are given one after another, whatever is asked. A request that finds none left is a fault.
#[derive(Drop)]
pub struct MemLink {
    replies: Vec<Bytes>,
    next: usize,
    asked: Vec<(Bytes, Option<Bytes>)>,
    faults: u64,
    exchanges: FaultPlan,
}

impl Model for MemLink {
    ghost use Rattle.std.specs.Prelude.{drop};
    ghost use Rattle.gnap_io.specs.MemoryForms.{LinkForm};

    ghost Value = { LinkForm };

    ghost view = { λ link. record { replies = drop link.next link.replies.items; asked = link.asked.items; faults = link.faults; exchanges = link.exchanges } };
}

impl MemLink {
    /// A link that gives these replies, in order, and whose exchanges of the given numbers, counted from 1, fail.
    pub fn new(replies: Vec<Bytes>, bad_exchanges: Vec<u64>) -> MemLink
        ensures { result ≡ unasked_link replies.items bad_exchanges.items }
    {
        let alloc = *replies.allocator();
        MemLink {
            replies,
            next: 0,
            asked: Vec::new(alloc),
            faults: 0,
            exchanges: FaultPlan::new(bad_exchanges),
        }
    }

    /// The requests, and their replies where one came, in order.
    pub fn asked(&self) -> &[(Bytes, Option<Bytes>)]
        ensures { result.now ≡ self.now.asked }
    {
        self.asked.as_slice()
    }
}

impl Link for MemLink {
    ghost use Rattle.gnap_io.specs.MemoryForms.{link_state};

    ghost link = { link_state };

    fn exchange(&mut self, request: &[u8]) -> Result<Bytes, LinkFault>
        ensures exchange { Exchanges request.now (⟦<MemLink as Link>⟧.link self.old) (⟦<MemLink as Link>⟧.link self.new) result }
        ensures by_plan { ExchangesByPlan request.now self.old self.new result }
    {
        let fails = self.exchanges.next_fails();
        let alloc = *self.asked.allocator();
        let Ok(request) = Bytes::from_slice(alloc, request) else {
            return Err(LinkFault::OutOfMemory);
        };
        if self.asked.reserve(1).is_err() {
            return Err(LinkFault::OutOfMemory);
        }
        if fails || self.next >= self.replies.len() {
            self.faults = self.faults.saturating_add(1);
            self.asked.push_reserved((request, None));
            return Err(LinkFault::Failed);
        }
        let (Ok(reply), Ok(kept)) = (
            self.replies[self.next].copy(),
            self.replies[self.next].copy(),
        ) else {
            return Err(LinkFault::OutOfMemory);
        };
        self.next += 1;
        self.asked.push_reserved((request, Some(kept)));
        Ok(reply)
    }
}
