ghost use Rattle.std.specs.Prelude.{◌≡◌, vec_len};
ghost use Rattle.area.specs.Layout.{limit_of};

// The whole memory of a service file. Its length fixes how many nodes a tree may have.
#[derive(Drop)]
pub struct Area {
    pub(crate) words: Vec<u32>,
    pub(crate) limit: usize,
    ghost ok: { limit ≡ limit_of (vec_len words) },
}
