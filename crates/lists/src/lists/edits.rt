//! What is read of the lists, and how they are changed.
ghost use Rattle.std.specs.Prelude.{◌≡◌, ℕ, ◌<◌, true, [], ◌∷◌, ◌++◌, is_some, Some, None};
ghost use Rattle.lists.specs.Walk.{next_in, prev_in, first_of, last_of, insert_after, insert_before, without};
ghost use Rattle.lists.specs.Lists.{nodes, containers, members, home, Relinked};

use crate::links::Gap;
use crate::lists::LinkedLists;

impl LinkedLists {
    /// How many nodes there are.
    pub fn node_count(&self) -> usize
        ensures { result ≡ nodes self.now }
    {
        self.raw.links.len()
    }

    /// How many containers there are.
    pub fn container_count(&self) -> usize
        ensures { result ≡ containers self.now }
    {
        self.raw.ends.len()
    }

    /// The node behind `node` in its container's list.
    pub fn get_next(&self, node: usize) -> Option<usize>
        ensures { result ≡ next_in (members self.now) (home self.now node) node }
    {
        self.raw.at(node).next
    }

    /// The node before `node` in its container's list.
    pub fn get_prev(&self, node: usize) -> Option<usize>
        ensures { result ≡ prev_in (members self.now) (home self.now node) node }
    {
        self.raw.at(node).prev
    }

    /// The container that `node` is in.
    pub fn get_container(&self, node: usize) -> Option<usize>
        ensures { result ≡ home self.now node }
    {
        self.raw.at(node).container
    }

    /// The first node of `container`.
    pub fn get_head(&self, container: usize) -> Option<usize>
        ensures { result ≡ first_of (members self.now container) }
    {
        self.raw.ends_of(container).head
    }

    /// The last node of `container`.
    pub fn get_tail(&self, container: usize) -> Option<usize>
        ensures { result ≡ last_of None (members self.now container) }
    {
        self.raw.ends_of(container).tail
    }

    /// Links `node` as the first of `container`.
    pub fn insert_at_front(&mut self, node: usize, container: usize)
        requires node { node < nodes self.old }
        requires unlinked { home self.old node ≡ None }
        requires container { container < containers self.old }
        ensures { Relinked self.old self.new container (node ∷ members self.old container) node (Some container) }
    {
        let ends = self.raw.ends_of(container);
        let gap = Gap {
            container,
            prev: None,
            next: ends.head,
        };
        self.raw.link(node, gap);
    }

    // Stays: front and back, before and behind are mirrors; each pair sets the other end of the gap.
    /// Links `node` as the last of `container`.
    pub fn insert_at_back(&mut self, node: usize, container: usize)
        requires node { node < nodes self.old }
        requires unlinked { home self.old node ≡ None }
        requires container { container < containers self.old }
        ensures { Relinked self.old self.new container (members self.old container ++ node ∷ []) node (Some container) }
    {
        let ends = self.raw.ends_of(container);
        let gap = Gap {
            container,
            prev: ends.tail,
            next: None,
        };
        self.raw.link(node, gap);
    }

    /// Links `node` right before `mark`.
    pub fn insert_before(&mut self, node: usize, mark: usize)
        requires node { node < nodes self.old }
        requires unlinked { home self.old node ≡ None }
        requires linked { is_some (home self.old mark) ≡ true }
        ensures { (c : ℕ) → home self.old mark ≡ Some c → Relinked self.old self.new c (insert_before mark node (members self.old c)) node (Some c) }
    {
        let gap = Gap {
            next: Some(mark),
            ..self.raw.gap_of(mark).unwrap()
        };
        self.raw.link(node, gap);
    }

    /// Links `node` right behind `mark`.
    pub fn insert_after(&mut self, node: usize, mark: usize)
        requires node { node < nodes self.old }
        requires unlinked { home self.old node ≡ None }
        requires linked { is_some (home self.old mark) ≡ true }
        ensures { (c : ℕ) → home self.old mark ≡ Some c → Relinked self.old self.new c (insert_after mark node (members self.old c)) node (Some c) }
    {
        let gap = Gap {
            prev: Some(mark),
            ..self.raw.gap_of(mark).unwrap()
        };
        self.raw.link(node, gap);
    }

    /// Takes `node` out of its container's list.
    pub fn unlink(&mut self, node: usize)
        requires { is_some (home self.old node) ≡ true }
        ensures { (c : ℕ) → home self.old node ≡ Some c → Relinked self.old self.new c (without node (members self.old c)) node None }
    {
        let gap = self.raw.gap_of(node).unwrap();
        self.raw.unlink(node, gap);
    }
}
