// What a mark, a gap or a new lead does to one challenger, and whether it is sound.
pub mod each;
pub mod sound;
