// A streak on its own.
ghost use Rattle.bank.specs.Props.{props};
ghost use Rattle.bank.specs.Streaks.{Streaks};

// A streak: its marks and the gaps between them.
#[derive(Clone, Copy)]
pub struct Run {
    pub marks: [f32; 4],
    pub marks_len: usize,
    pub gaps: [f32; 4],
    pub gaps_len: usize,
    pub ghost sound: { Streaks marks marks_len gaps gaps_len } by { Prim.hlevel props },
}
