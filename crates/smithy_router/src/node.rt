// Nodes of the tree of routes.
ghost use Rattle.std.specs.Prelude.{◌≡◌, OnOk, OnErr};
ghost use Rattle.smithy_router.specs.Segments.{Literal};
ghost use Rattle.smithy_router.specs.Seen.{segment_seen};
ghost use Rattle.smithy_router.specs.Tree.{child_of, HasChild, HasEnd, IsAs, IsLeaf};

use crate::segment::PathSegment;
use smithy_types::OutOfMemory;
use std::alloc::Global;
use std::collections::BTreeMap;

/// A node: the places of its children behind literals and behind a hole, and the numbers of the entries that end here.
#[derive(Drop)]
pub struct Node {
    pub literals: BTreeMap<String, usize>,
    pub hole: Option<usize>,
    pub ends: Vec<usize>,
    pub greedy: Vec<usize>,
}

impl Node {
    /// A node without children. Takes no memory.
    pub fn new(alloc: Global) -> Node
        ensures { IsLeaf result }
    {
        Node {
            literals: BTreeMap::new(alloc),
            hole: None,
            ends: Vec::new(alloc),
            greedy: Vec::new(alloc),
        }
    }

    /// The child behind a literal. Takes no memory.
    pub fn literal_child(&self, text: &str) -> Option<usize>
        ensures { result ≡ child_of self.now (Literal text.now) }
    {
        self.literals.get(text).copied()
    }

    /// The child behind a segment of a route. Takes no memory.
    pub fn child(&self, segment: &PathSegment) -> Option<usize>
        ensures { result ≡ child_of self.now (segment_seen segment.now) }
    {
        match segment {
            PathSegment::Literal(text) => self.literal_child(text.as_str()),
            PathSegment::Hole => self.hole,
        }
    }

    // Puts the child behind a literal.
    fn put_literal(&mut self, alloc: Global, text: &str, child: usize) -> Result<(), OutOfMemory>
        ensures ok { OnOk result (HasChild self.old (Literal text.now) child self.new) }
        ensures err { OnErr result (IsAs self.old self.new) }
    {
        let text = String::from_str(alloc, text)?;
        self.literals.insert(text, child)?;
        Ok(())
    }

    /// Puts the child behind a segment of a route. Takes memory for a literal.
    pub fn put_child(
        &mut self,
        alloc: Global,
        segment: &PathSegment,
        child: usize,
    ) -> Result<(), OutOfMemory>
        ensures ok { OnOk result (HasChild self.old (segment_seen segment.now) child self.new) }
        ensures err { OnErr result (IsAs self.old self.new) }
    {
        match segment {
            PathSegment::Literal(text) => self.put_literal(alloc, text.as_str(), child),
            PathSegment::Hole => {
                self.hole = Some(child);
                Ok(())
            }
        }
    }

    /// Adds the number of an entry that ends here. Takes memory for it.
    pub fn push_end(&mut self, is_greedy: bool, number: usize) -> Result<(), OutOfMemory>
        ensures ok { OnOk result (HasEnd self.old is_greedy number self.new) }
        ensures err { OnErr result (IsAs self.old self.new) }
    {
        if is_greedy {
            self.greedy.push(number)?;
        } else {
            self.ends.push(number)?;
        }
        Ok(())
    }
}
