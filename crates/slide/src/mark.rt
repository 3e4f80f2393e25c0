// A mark and its label.
ghost use Rattle.slide.specs.inner.Plain.{plain_mark};
ghost use Rattle.slide.specs.inner.Room.{GoodLabel};

// Its place, as a dot, and the length of its label, which stays within the coordinates wherever it slides.
#[derive(Clone, Copy)]
pub struct Mark {
    pub place: u16,
    pub length: u8,
    ghost good: { GoodLabel (plain_mark place length) },
}

impl Mark {
    ghost use Rattle.std.specs.Prelude.{◌≡◌, ◌+◌, ◌-◌, ◌≤◌};
    ghost use Rattle.geometry.specs.Sliding.{leftmost_edge};
    ghost use Rattle.slide.specs.inner.Handed.{mark_of};
    ghost use Rattle.slide.specs.inner.Room.{slid_by, other_side_lem};

    // The leftmost place of the label's left edge.
    fn start(self) -> u16
        ensures { result ≡ self.place - self.length }
    {
        self.place - self.length as u16
    }

    // How far the label slides from there on a side with this reach.
    pub fn slid(self, reach: u16) -> u16
        ensures { result ≡ slid_by (mark_of self) reach }
    {
        reach.saturating_sub(self.start())
    }

    // The left edge of the label as far left as it goes on that side.
    pub fn leftmost(self, reach: u16) -> u16
        ensures { result ≡ leftmost_edge (mark_of self) reach }
    {
        reach.max(self.start())
    }

    // The bound where the label lies on the other side and may slide by less than `slides` dots.
    pub fn other_side(self, slides: usize) -> u16
        requires { slides ≤ self.length + 1 }
        ensures { result ≡ other_side_lem (mark_of self) slides }
    {
        if slides == 0 {
            return 0;
        }
        self.start() + slides as u16
    }
}
