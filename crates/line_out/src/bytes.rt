ghost use Rattle.std.specs.Prelude.{◌≤◌};

// At most N bytes, in the first places of an array: no heap, as the project asks.
#[derive(Clone, Copy)]
pub struct Bytes<const N: usize> {
    at: [u8; N],
    len: usize,
    pub ghost fits: { len ≤ N },
}

impl<const N: usize> Bytes<N> {
    ghost use Rattle.std.specs.Prelude.{◌≡◌, [], ◌∷◌, ◌++◌, take};
    ghost use Rattle.line_out.specs.Bytes.{contents};

    // None yet.
    pub fn new() -> Self
        ensures { contents result ≡ [] }
    {
        Bytes { at: [0; N], len: 0 }
    }

    // More of them, as far as there is room.
    pub fn write(&mut self, more: &[u8])
        ensures { contents self.new ≡ take N (contents self.old ++ more.now) }
    {
        let n = (N - self.len).min(more.len());
        let at = &mut self.at[..];
        at[self.len..self.len + n].copy_from_slice(&more[..n]);
        self.len += n;
    }

    // One more, where there is room.
    pub fn push(&mut self, b: u8)
        ensures { contents self.new ≡ take N (contents self.old ++ (b ∷ [])) }
    {
        if self.len < N {
            self.at[self.len] = b;
            self.len += 1;
        }
    }

    // None any more.
    pub fn clear(&mut self)
        ensures { contents self.new ≡ [] }
    {
        self.len = 0;
    }

    pub fn as_slice(&self) -> &[u8]
        ensures { result.now ≡ contents self.now }
    {
        let at = &self.at[..];
        &at[..self.len]
    }
}
