//! The links as they lie in memory.
ghost use Rattle.std.specs.Prelude.{◌≡◌, ℕ, ◌<◌, length, MatchOption, Some, None};
ghost use Rattle.lists.specs.Walk.{links_at, ends_at, home_of, put_next, put_prev, put_head, put_tail, patch_links, patch_ends, Place};

use crate::links::{Ends, Gap, Links};

#[derive(Drop)]
pub struct Raw {
    // Stays: arenas by slot, taken when they are made; nothing allocates afterwards.
    pub links: Vec<Links>,
    pub ends: Vec<Ends>,
}

impl Raw {
    /// What `node` keeps; past the last node, what an unlinked node keeps.
    pub fn at(&self, node: usize) -> Links
        ensures { result ≡ links_at self.now.links.items node }
    {
        self.links.get(node).copied().unwrap_or_default()
    }

    /// The gap that `node` fills, if it is in a list.
    pub fn gap_of(&self, node: usize) -> Option<Gap>
        ensures { MatchOption result (home_of self.now.links.items node ≡ None) (λ gap. links_at self.now.links.items node ≡ record { container = Some gap.container; prev = gap.prev; next = gap.next }) }
    {
        let Links {
            container,
            prev,
            next,
        } = self.at(node);
        Some(Gap {
            container: container?,
            prev,
            next,
        })
    }

    /// What `container` keeps; past the last container, what an empty one keeps.
    pub fn ends_of(&self, container: usize) -> Ends
        ensures { result ≡ ends_at self.now.ends.items container }
    {
        self.ends.get(container).copied().unwrap_or_default()
    }

    /// What is behind the place `at` becomes `to`: `None` is the place before the first node.
    fn set_next(&mut self, container: usize, at: Option<usize>, to: Option<usize>)
        requires container { container < length self.old.ends.items }
        requires place { Place self.old.links.items at }
        ensures links { self.new.links.items ≡ put_next self.old.links.items at to }
        ensures ends { self.new.ends.items ≡ put_head self.old.ends.items container at to }
    {
        match at {
            Some(node) => self.links[node].next = to,
            None => self.ends[container].head = to,
        }
    }

    // Stays: the mirror of set_next; one function for both ways would have to choose between two fields of two structs.
    fn set_prev(&mut self, container: usize, at: Option<usize>, to: Option<usize>)
        requires container { container < length self.old.ends.items }
        requires place { Place self.old.links.items at }
        ensures links { self.new.links.items ≡ put_prev self.old.links.items at to }
        ensures ends { self.new.ends.items ≡ put_tail self.old.ends.items container at to }
    {
        match at {
            Some(node) => self.links[node].prev = to,
            None => self.ends[container].tail = to,
        }
    }

    /// Links `node` in `gap`.
    pub fn link(&mut self, node: usize, gap: Gap)
        requires node { node < length self.old.links.items }
        requires container { gap.container < length self.old.ends.items }
        requires prev { Place self.old.links.items gap.prev }
        requires next { Place self.old.links.items gap.next }
        ensures links { self.new.links.items ≡ patch_links self.old.links.items gap.prev (Some node) gap.next (Some node) node (record { container = Some gap.container; prev = gap.prev; next = gap.next }) }
        ensures ends { self.new.ends.items ≡ patch_ends self.old.ends.items gap.container gap.prev (Some node) gap.next (Some node) }
    {
        self.set_next(gap.container, gap.prev, Some(node));
        self.set_prev(gap.container, gap.next, Some(node));
        self.links[node] = Links {
            container: Some(gap.container),
            prev: gap.prev,
            next: gap.next,
        };
    }

    /// Unlinks `node`, which fills `gap`.
    pub fn unlink(&mut self, node: usize, gap: Gap)
        requires node { node < length self.old.links.items }
        requires container { gap.container < length self.old.ends.items }
        requires prev { Place self.old.links.items gap.prev }
        requires next { Place self.old.links.items gap.next }
        ensures links { self.new.links.items ≡ patch_links self.old.links.items gap.prev gap.next gap.next gap.prev node (record { container = None; prev = None; next = None }) }
        ensures ends { self.new.ends.items ≡ patch_ends self.old.ends.items gap.container gap.prev gap.next gap.next gap.prev }
    {
        self.set_next(gap.container, gap.prev, gap.next);
        self.set_prev(gap.container, gap.next, gap.prev);
        self.links[node] = Links::default();
    }
}
