// Lists of links: each head has one, and a link hangs in at most one list. Numbers that are not there are read as none, and written nowhere.
ghost use Rattle.std.specs.Iterator.{at_most};

use crate::codes::shuttle_of;
use std::alloc::{AllocError, Global};

// The link behind this one in its list, and the move that it leads to.
#[derive(Clone, Copy)]
pub(crate) struct Link {
    next: Option<u16>,
    pub(crate) end: u16,
}

// Links name one another by number: a list of boxes would allocate, and no call on the graph may begin to fail.
#[derive(Drop)]
pub(crate) struct Links {
    // the first link of each head's list
    first: Vec<Option<u16>>,
    links: Vec<Link>,
}

// The links of a list from one on, each with its number. There are no more than are left.
#[derive(Drop)]
pub(crate) struct Chain<'a> {
    links: &'a [Link],
    at: Option<u16>,
    left: usize,
}

impl<'a> Iterator for Chain<'a> {
    type Item = (u16, Link);

    ghost remaining = { λ s. at_most s.left };

    fn next(&mut self) -> Option<(u16, Link)> {
        if self.left == 0 {
            return None;
        }
        let number = self.at?;
        let link = *self.links.get(number as usize)?;
        self.at = link.next;
        self.left -= 1;
        Some((number, link))
    }
}

impl Links {
    pub(crate) fn make(heap: Global, heads: usize, links: usize) -> Result<Links, AllocError> {
        let free = Link { next: None, end: 0 };
        Ok(Links {
            first: Vec::from_elem(heap, None, heads)?,
            links: Vec::from_elem(heap, free, links)?,
        })
    }

    // The first link of the head's list.
    pub(crate) fn first(&self, head: usize) -> Option<u16> {
        *self.first.get(head)?
    }

    // The links of the head's list.
    pub(crate) fn of(&self, head: usize) -> Chain<'_> {
        Chain {
            links: self.links.as_slice(),
            at: self.first(head),
            left: self.links.len(),
        }
    }

    fn set_first(&mut self, head: usize, number: Option<u16>) {
        if let Some(first) = self.first.get_mut(head) {
            *first = number;
        }
    }

    // Hangs the link at the front of the head's list.
    pub(crate) fn hang(&mut self, head: usize, number: u16, end: u16) {
        let next = self.first(head);
        if let Some(link) = self.links.get_mut(number as usize) {
            *link = Link { next, end };
        }
        self.set_first(head, Some(number));
    }

    // Takes the link out of the head's list.
    pub(crate) fn unhang(&mut self, head: usize, number: u16) {
        let behind = self.links.get(number as usize).and_then(|link| link.next);
        if self.first(head) == Some(number) {
            self.set_first(head, behind);
        } else if let Some(link) = self.ahead(head, number) {
            link.next = behind;
        }
    }

    // The link just ahead of this one in the head's list.
    fn ahead(&mut self, head: usize, number: u16) -> Option<&mut Link> {
        let (ahead, _) = self.of(head).find(|(_, link)| link.next == Some(number))?;
        self.links.get_mut(ahead as usize)
    }

    // The link of the head's list that leads to the move.
    pub(crate) fn find(&self, head: usize, end: u16) -> Option<u16> {
        let (number, _) = self.of(head).find(|(_, link)| link.end == end)?;
        Some(number)
    }

    // Whether a link of the head's list leads to the shuttle.
    pub(crate) fn leads_to(&self, head: usize, shuttle: u16) -> bool {
        self.of(head)
            .any(|(_, link)| shuttle_of(link.end) == shuttle)
    }
}
