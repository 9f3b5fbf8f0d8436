// A mark for each of so many positions.
ghost use Rattle.std.specs.Prelude.{◌≡◌, ◌≤◌, false, true, replicate, slice_index_or, slice_set, IfOk};
ghost use Rattle.smithy_binding.specs.views.Marks.{few_of, marks_of};

use crate::few_marks::FewMarks;
use std::alloc::{AllocError, Global};

// So many marks take no block of memory.
const FEW: usize = 64;

/// A mark for each of so many positions.
#[derive(Drop)]
pub enum Marks {
    Few(FewMarks),
    Many(Vec<bool>),
}

// Marks, none of which is set.
fn no_marks() -> [bool; 64]
    ensures { result ≡ replicate 64 false }
{
    [false; 64]
}

// So many marks, none of which is set.
fn few_marks(count: usize) -> FewMarks
    requires { count ≤ 64 }
    ensures { few_of result ≡ replicate count false }
{
    FewMarks {
        count,
        marks: no_marks(),
    }
}

// Sets the mark at a position, where there is one.
fn mark_few(few: &mut FewMarks, position: usize)
    ensures { few_of few.new ≡ slice_set (few_of few.old) position true }
{
    if position < few.count {
        few.marks[position] = true;
    }
}

// Sets the mark at a position, where there is one.
fn mark_many(marks: &mut Vec<bool>, position: usize)
    ensures { marks.new.items ≡ slice_set marks.old.items position true }
{
    if position < marks.len() {
        marks[position] = true;
    }
}

impl Marks {
    /// So many positions, none of which is marked. Takes memory for more than 64, linear in their number.
    #[inline(always)]
    pub fn new(alloc: Global, count: usize) -> Result<Marks, AllocError>
        ensures { IfOk result (λ m. marks_of m ≡ replicate count false) }
    {
        if count > FEW {
            return Ok(Marks::Many(vec![in alloc; false; count]?));
        }
        Ok(Marks::Few(few_marks(count)))
    }

    // The marks in order.
    #[inline(always)]
    fn as_slice(&self) -> &[bool]
        ensures { result.now ≡ marks_of self.now }
    {
        match self {
            Marks::Few(few) => &few.marks[..few.count],
            Marks::Many(marks) => marks.as_slice(),
        }
    }

    /// Whether the position is marked, which one that isn't there is not.
    #[inline(always)]
    pub fn is_marked(&self, position: usize) -> bool
        ensures { result ≡ slice_index_or (marks_of self.now) position false }
    {
        self.as_slice().get(position).copied().unwrap_or(false)
    }

    /// Marks the position, where it is there.
    #[inline(always)]
    pub fn mark(&mut self, position: usize)
        ensures { marks_of self.new ≡ slice_set (marks_of self.old) position true }
    {
        match self {
            Marks::Few(few) => mark_few(few, position),
            Marks::Many(marks) => mark_many(marks, position),
        }
    }
}
