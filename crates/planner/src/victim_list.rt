// All victims, "listed by the lowest member of their circle", and KNOT.
ghost use Rattle.std.specs.Prelude.{◌≡◌, ◌<◌};
ghost use Rattle.planner.specs.Seen.{seen_by};
ghost use Rattle.planner.specs.Asking.{Scanning, Circled};
ghost use Rattle.planner.specs.Listing.{knot_after, noted, listed};

use crate::Victims;
use crate::circles::NOBODY;
use crate::view::View;
use gus::Best;

// The first circle without a victim stays the knot.
fn knot_after(knot: u8, some: bool, low: u8) -> u8
    ensures { result ≡ knot_after knot some low }
{
    if knot < 32 {
        knot
    } else if some {
        NOBODY
    } else {
        low
    }
}

fn note(mut v: Victims, b: Best, low: u8) -> Victims
    requires { (v.count < 32) × (b.last < 32) }
    ensures { result ≡ noted v b low }
{
    v.list[v.count] = b.last;
    v.count += 1;
    v.knot = knot_after(v.knot, b.some, low);
    v
}

impl View<'_> {
    fn list_victims(&self, circles: &[u8; 32]) -> Victims
        requires { Circled (seen_by self.now) self.now.jobs self.now.moment circles.now }
        ensures { result ≡ listed (seen_by self.now) self.now.moment }
    {
        let mut v = Victims {
            list: [0; 32],
            count: 0,
            knot: NOBODY,
        };
        for (job, circle) in circles[..self.jobs].iter().enumerate() {
            let low = job as u8;
            if *circle == low {
                let b = self.victim_of(circles, low);
                v = note(v, b, low);
            }
        }
        v
    }

    pub(crate) fn victims(&self) -> Victims
        requires { Scanning (seen_by self.now) self.now.jobs self.now.moment }
        ensures { result ≡ listed (seen_by self.now) self.now.moment }
    {
        let found = self.sheet.circles(self.jobs);
        self.list_victims(&found)
    }
}
