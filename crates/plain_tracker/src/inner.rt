// Arrays carried over, for functions that compute.
ghost use Rattle.std.specs.Prelude.{◌≡◌};
ghost use Rattle.plain_tracker.specs.Plain.{carried};

// The first count of an array, each by f, and blank in every place beyond them; g is what f computes.
pub fn carried<A: Copy, B: Copy, const N: usize, F: Fn(A) -> B>(
    from: &[A; N],
    count: usize,
    blank: B,
    f: F,
) -> [B; N]
    ghost g: { A → B }
    requires callable { F.IsAlwaysCallable f }
    requires gives { (x : A) (y : B) → F.post f x y → y ≡ g x }
    ensures { result ≡ carried g blank count from.now }
{
    let mut out = [blank; N];
    for i in 0..count.min(N) {
        out[i] = f(from[i]);
    }
    out
}
