// Few marks, which stand in the value itself.
ghost use Rattle.std.specs.Prelude.{◌≤◌};

/// The first so many of these marks.
#[derive(Drop)]
pub struct FewMarks {
    pub count: usize,
    pub marks: [bool; 64],
    ghost fits: { count ≤ 64 },
}
