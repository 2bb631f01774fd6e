// Where a hypothesis came from, and counts of marks.
ghost use Rattle.std.specs.Prelude.{◌≡◌};
ghost use Rattle.bank_model.specs.Model.{up1, retained, ticked};

use crate::Origin;

// One more, or as it is at the largest.
pub fn up_one(n: u32) -> u32
    ensures { result ≡ up1 n }
{
    n.saturating_add(1)
}

// Whether marks of protection are left.
pub fn is_retained(o: Origin) -> bool
    ensures { result ≡ retained o }
{
    match o {
        Origin::FormerPrimary { retain_marks } => 0 < retain_marks,
        _ => false,
    }
}

// One mark of protection less.
pub fn tick(o: Origin) -> Origin
    ensures { result ≡ ticked o }
{
    match o {
        Origin::FormerPrimary { retain_marks } => Origin::FormerPrimary {
            retain_marks: retain_marks.saturating_sub(1),
        },
        _ => o,
    }
}
