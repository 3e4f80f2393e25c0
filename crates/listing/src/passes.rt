// What the passes say, at the listing's gap, of a strip that the checks on entry accept: each is asked here, with lent memory of its own,
// and printed elsewhere.
ghost use Rattle.std.specs.Prelude.{◌≡◌, ◌≤◌, length};
ghost use Rattle.geometry.specs.Lists.{sum_list};
ghost use Rattle.geometry.specs.Strip.{lists_of, marks_of, most_marks, most_short};
ghost use Rattle.geometry.specs.Sliding.{slides_whole};
ghost use Rattle.geometry.specs.Refusal.{accepted};
ghost use Rattle.geometry.specs.Entry.{entry};
ghost use Rattle.listing.specs.Text.{listing_gap};
ghost use Rattle.listing.specs.inner.Lines.{FullFound, BestFound};

use best::choice::Choice;
use geometry::limits::MOST_SHORT;
use geometry::strip::Strip;

// So many clear dots between neighbours: labels that touch run together on thermal paper. `listing_gap` of the specifications.
const GAP: u8 = 1;

// The positions of the first placing, if the strip fits in four positions; they are put into the list.
pub fn fits<'a>(strip: Strip, positions: &'a mut [u8]) -> Option<&'a [u8]>
    requires good { entry most_marks (lists_of strip) ≡ accepted }
    requires room { most_marks ≤ length positions.old }
    ensures { FullFound (lists_of strip.entry) result }
{
    let mut work = [0i16; full::WORK_NAMED];
    full::full(strip, GAP, positions, &mut work).ok()?;
    Some(&positions[..strip.places.len()])
}

// A short strip, which the slide and the best pass take too.
#[derive(Clone, Copy)]
pub struct Short<'a> {
    pub strip: Strip<'a>,
    ghost good: { entry most_short (lists_of strip) ≡ accepted },
}

impl Short<'_> {
    // Whether it fits with sliding labels.
    pub fn slides(self) -> bool
        ensures { result ≡ slides_whole listing_gap (marks_of (lists_of self.entry.strip)) }
    {
        let mut sides = [0u8; MOST_SHORT];
        let mut edges = [0i16; MOST_SHORT];
        let mut work = [0u16; slide::WORK_NAMED];
        slide::slide(self.strip, GAP, &mut sides, &mut edges, &mut work).is_ok()
    }

    // The greatest sum and the count of left-out marks, whose numbers are put into the list.
    pub fn choose(self, left_out: &mut [u16]) -> Choice
        requires { most_short ≤ length left_out.old }
        ensures { BestFound
            (lists_of self.entry.strip) result.sum result.count
            left_out.new }
    {
        let mut positions = [0u8; MOST_SHORT];
        let mut work = [0u32; best::WORK_NAMED];
        best::best(self.strip, GAP, &mut positions, left_out, &mut work).unwrap()
    }

    // The weight of all marks: 60,000 at most, so 16 bits hold it.
    #[tactic(auto, using(crate::proofs::Sums::sum_is))]
    pub fn total_weight(self) -> u16
        ensures { result ≡ sum_list (lists_of self.entry.strip).weights }
    {
        self.strip.weights.iter().sum()
    }
}
