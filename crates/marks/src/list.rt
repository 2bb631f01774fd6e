// Lists of at most twelve, as types: whoever is handed one has not to ask again.
ghost use Rattle.std.specs.Prelude.{◌≡◌, ◌≤◌, T, IfOk, length};
ghost use Rattle.refusals.specs.Refusal.{refusal_of};
ghost use Rattle.marks.specs.Lists.{all_durations, list_refusal};

use refusals::Refusal;

// Gaps as a caller lists them, which refusal 4 lets pass.
#[derive(Clone, Copy)]
pub struct Gaps<'a> {
    pub at: &'a [f32],
    pub ghost few: { length at.now ≤ 12 },
}

impl<'a> TryFrom<&'a [f32]> for Gaps<'a> {
    type Error = Refusal;

    ghost try_from_gives = { λ xs r. (refusal_of r ≡ list_refusal xs.now) × IfOk r (λ g. g.at ≡ xs) };

    fn try_from(at: &'a [f32]) -> Result<Gaps<'a>, Refusal> {
        if at.len() > 12 {
            return Err(Refusal::LongList);
        }
        Ok(Gaps { at })
    }
}

// Marks or gaps, each a duration.
#[derive(Clone, Copy)]
pub struct Marks<'a> {
    pub at: &'a [f32],
    pub ghost held: { T (all_durations at.now) },
    pub ghost few: { length at.now ≤ 12 },
}

// At most N numbers, in the first places of an array: no heap, as the project asks.
#[derive(Clone, Copy)]
pub struct List<const N: usize> {
    pub at: [f32; N],
    pub len: usize,
    pub ghost few: { len ≤ N },
}
