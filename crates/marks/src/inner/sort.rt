// The marks of a lock, sorted (document 01: "sort").
ghost use Rattle.std.specs.Prelude.{◌≡◌, [], ◌∷◌, ◌++◌};
ghost use Rattle.marks.specs.Sort.{lesser, greater, insert, sorted};

// `f32::min` leaves open which of two equal numbers it gives.
pub(crate) fn lesser(x: f32, y: f32) -> f32
    ensures { result ≡ lesser x y }
{
    if y < x { y } else { x }
}

// `f32::max` leaves open which of two equal numbers it gives.
pub(crate) fn greater(x: f32, y: f32) -> f32
    ensures { result ≡ greater x y }
{
    if y < x { x } else { y }
}

// x put into s, which is sorted: the greatest of them has no place there, and is handed back.
pub(crate) fn insert(s: &mut [f32], x: f32) -> f32
    ensures { s.new ++ (result ∷ []) ≡ insert x s.old }
{
    let mut carried = x;
    for place in s.iter_mut() {
        let y = *place;
        *place = lesser(carried, y);
        carried = greater(carried, y);
    }
    carried
}

// Least first. The library's sorts want an order of all numbers, and `sorted` says what becomes of a NaN too.
pub fn sort(s: &mut [f32])
    ensures { s.new ≡ sorted s.old }
{
    for i in 0..s.len() {
        let x = s[i];
        s[i] = insert(&mut s[..i], x);
    }
}
