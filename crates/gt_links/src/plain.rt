//! The same lists kept plainly, one vector of nodes for each list, to compare with.
use std::alloc::{AllocError, Global};

#[derive(Drop)]
pub(crate) struct Plain {
    lists: Vec<Vec<u32>>,
}

impl Plain {
    pub(crate) fn new(alloc: Global, lists: u32) -> Result<Plain, AllocError> {
        let mut made = Vec::new(alloc);
        for _ in 0..lists {
            made.push(Vec::new(alloc))?;
        }
        Ok(Plain { lists: made })
    }

    pub(crate) fn push_front(&mut self, list: u32, node: u32) -> Result<(), AllocError> {
        if let Some(nodes) = self.lists.get_mut(list as usize) {
            nodes.insert(0, node)?;
        }
        Ok(())
    }

    pub(crate) fn push_back(&mut self, list: u32, node: u32) -> Result<(), AllocError> {
        if let Some(nodes) = self.lists.get_mut(list as usize) {
            nodes.push(node)?;
        }
        Ok(())
    }

    pub(crate) fn unlink(&mut self, node: u32) {
        for nodes in &mut self.lists {
            nodes.retain(|other| *other != node);
        }
    }

    pub(crate) fn move_back(&mut self, node: u32) -> Result<(), AllocError> {
        let Some(list) = self.list_of(node) else {
            return Ok(())
        };
        self.unlink(node);
        self.push_back(list, node)
    }

    pub(crate) fn list_of(&self, node: u32) -> Option<u32> {
        for (list, nodes) in (0u32..).zip(&self.lists) {
            if nodes.contains(&node) {
                return Some(list);
            }
        }
        None
    }

    /// The nodes of a list, first to last.
    pub(crate) fn nodes(&self, list: u32) -> Option<&[u32]> {
        Some(self.lists.get(list as usize)?.as_slice())
    }
}
