// Where reading stands, and how far it went.
ghost use Rattle.std.specs.Prelude.{◌≡◌, ℕ, ◌^◌, ◌<◌, ◌≤◌, Ok};
ghost use Rattle.util.specs.Reader.{Outcome};
ghost use Rattle.util.specs.ReaderCode.{outcome, tallied, Follows};

use crate::refusal::Refusal;

// The position of the next field, and how far the parts reach that have been read.
#[derive(Clone, Copy)]
pub struct Cur {
    pub pos: usize,
    pub reach: usize,
}

// How far some items reach, and how many values their lists have.
#[derive(Clone, Copy)]
pub struct Tally {
    pub reach: usize,
    pub samples: u64,
}

// Some items, one after the other: `one` is given an item's index and how far the parts before it reach. How far all of them reach, and how
// many values they have.
pub fn follow<F: Fn(usize, usize) -> Result<Tally, Refusal>>(
    count: usize,
    reach: usize,
    one: F,
) -> Result<Tally, Refusal>
    requires callable { (i m : ℕ) → i < count → F.pre one i m }
    requires few { count < 65536 }
    requires short { (i m : ℕ) (t : Tally) → i < count → F.post one i m (Ok t) → t.samples < 2 ^ 40 }
    ensures { (left : ℕ → ℕ → ℕ → Outcome ℕ) → Follows (F.post one) count left → outcome tallied result ≡ left 0 reach 0 }
{
    let mut all = Tally { reach, samples: 0 };
    for i in 0..count {
        let item = one(i, all.reach)?;
        all = Tally {
            reach: item.reach,
            samples: all.samples + item.samples,
        };
    }
    Ok(all)
}
