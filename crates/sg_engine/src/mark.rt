ghost use Rattle.sg_engine.specs.declared.tree.Tree.{Tree as TreeOf};
ghost use Rattle.sg_engine.specs.Back.{IsMark, IsSame};
ghost use Rattle.sg_engine.specs.Tree.{ListsOn, LeadsBack};

use crate::spent::Spent;
use crate::tree::Tree;
use std::mem;

/// How far a tree's lists go, by which it can be put back.
#[derive(Clone, Copy, Debug)]
pub struct Mark {
    pub nodes: usize,
    pub blocked: usize,
    pub queue: usize,
    pub next: usize,
    pub found: usize,
    pub explored: u128,
    pub going: usize,
}

impl<D> Tree<D> {
    /// How far the tree's lists go.
    pub fn mark(&self) -> Mark
        ensures { IsMark self.now result }
    {
        Mark {
            nodes: self.nodes.len(),
            blocked: self.blocked.len(),
            queue: self.queue.len(),
            next: self.next,
            found: self.found.len(),
            explored: self.explored,
            going: self.going,
        }
    }

    /// Puts a queue that was spent back in its place, and what was put aside in its.
    fn put_back(&mut self, spent: Option<Spent>)
        ensures { (t : TreeOf D) → LeadsBack t self.old spent → ListsOn t self.new }
    {
        match spent {
            Some(spent) => self.blocked = mem::replace(&mut self.queue, spent.queue),
            None => {}
        }
    }

    /// Makes the tree what it was at a mark. Takes no memory, and the time of what was added since then.
    pub fn go_back(&mut self, spent: Option<Spent>, mark: &Mark)
    where
        D: Drop,
        ensures { (t : TreeOf D) → IsMark t mark.now → LeadsBack t self.old spent → IsSame t self.new }
    {
        self.put_back(spent);
        self.nodes.truncate(mark.nodes);
        self.blocked.truncate(mark.blocked);
        self.queue.truncate(mark.queue);
        self.found.truncate(mark.found);
        self.next = mark.next;
        self.explored = mark.explored;
        self.going = mark.going;
    }
}
