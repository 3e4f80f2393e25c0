// A mark, the ends of its label and where its side reaches to with it: the only sums and differences of coordinates in the pass.
ghost use Rattle.std.specs.Prelude.{◌≡◌, ◌+◌, ◌-◌};
ghost use Rattle.geometry.specs.Dot.{dot};
ghost use Rattle.full.specs.inner.SixteenBits.{LeftEdge, Reach};
ghost use Rattle.full.specs.inner.OneMark.{Formed, Reached};

// Its place, the length of its label, and the gap behind it. Its weight changes no answer of this pass.
#[derive(Clone, Copy)]
pub struct Mark {
    pub place: i16,
    pub length: u8,
    pub gap: u8,
    ghost formed: { Formed place length gap },
}

// How far a side reaches with the mark's label to the left, which ends at the mark, and with the one to the right, which ends its length
// further on; the gap lies behind both.
#[derive(Clone, Copy)]
pub struct Reaches {
    pub near: i16,
    pub far: i16,
}

// So many dots further right: by a label's length from one of its ends to the other, by the gap from a right end to where the next label
// of that side may begin.
fn further(from: i16, dots: u8) -> i16
    requires { Reach (dot from + dots) }
    ensures { (dot result ≡ dot from + dots) × Reach (dot result) }
{
    from + dots as i16
}

impl Mark {
    // The left edge of the label to the left; that of the label to the right is the mark's place.
    pub fn left_edge(self) -> i16
        ensures { (dot result ≡ dot self.place - self.length) × LeftEdge (dot result) }
    {
        self.place - self.length as i16
    }

    pub fn reaches(self) -> Reaches
        ensures { Reached self.place self.length self.gap result.near result.far }
    {
        let near = further(self.place, self.gap);
        Reaches {
            near,
            far: further(near, self.length),
        }
    }
}
