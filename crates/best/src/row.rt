// A row of the table, the cells of one last label above, as mark k is counted in. What these cells share is found once, and a cell
// then follows from it and four numbers without a jump, so that the compiler takes several cells at once.
ghost use Rattle.std.specs.Prelude.{◌≤◌};
ghost use Rattle.geometry.specs.Mark.{most_weight};

// The reach above, where the label of mark k begins to the left and to the right, its weight, and what it earns with the marks after
// it below to the left and below to the right. Places are dots here.
#[derive(Clone, Copy)]
pub struct Row {
    pub reach: u16,
    pub left: u16,
    pub place: u16,
    pub weight: u32,
    pub leftward: u32,
    pub rightward: u32,
    ghost left_first: { left ≤ place },
    ghost light: { weight ≤ most_weight },
}

impl Row {
    ghost use Rattle.std.specs.Prelude.{◌≡◌};
    ghost use Rattle.best.specs.inner.Row.{offered, cell_from};
    ghost use Rattle.best.specs.inner.Trial.{most_sum};

    // The most that the label earns on a side that reaches to `reach`: `to_left` to the left of the mark, `to_right` to the right, and
    // nothing where it has no room. There is room to the right wherever there is room to the left.
    fn offer(self, reach: u16, to_left: u32, to_right: u32) -> u32
        ensures { result ≡ offered reach self.left self.place to_left to_right }
    {
        if reach <= self.left {
            to_left.max(to_right)
        } else if reach <= self.place {
            to_right
        } else {
            0
        }
    }

    // A cell of the row, from the reach below, the cell as it is, and the cells of the label above to the left and above to the right.
    pub fn cell(self, reach: u16, stay: u32, above_left: u32, above_right: u32) -> u32
        requires small_left { above_left ≤ most_sum }
        requires small_right { above_right ≤ most_sum }
        ensures { result ≡ cell_from self reach stay above_left above_right }
    {
        let above = self.offer(
            self.reach,
            self.weight + above_left,
            self.weight + above_right,
        );
        let below = self.offer(reach, self.leftward, self.rightward);
        stay.max(above).max(below)
    }
}
