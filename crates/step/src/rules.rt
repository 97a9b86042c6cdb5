ghost use Rattle.std.specs.Prelude.{◌≡◌, ◌≤◌, length};
ghost use Rattle.model.specs.Guard.{vector_bytes};

// What the step of every page reads beside its entry and its number: whether user mode runs, F, the pending frame (K6) and the vector, which has a bit for
// each frame below F. F is in its range, as question 7 has settled in every caller. No Option for the pending frame: where none is, it is 65535, which no
// frame below F is, so that a page's frame takes one comparison.
#[derive(Clone, Copy)]
pub struct Rules<'a> {
    pub user: bool,
    pub frames: u64,
    pub pending: u64,
    pub exclusion: &'a [u8],
    pub ghost whole: { length exclusion.now ≡ vector_bytes frames },
    pub ghost in_range: { frames ≤ 4096 },
}
