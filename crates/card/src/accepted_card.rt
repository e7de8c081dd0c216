// A card that no check refuses.
ghost use Rattle.std.specs.Prelude.{◌≡◌};
ghost use Rattle.card.specs.Checks.{check_of};

#[derive(Clone, Copy)]
pub struct Accepted<'c> {
    pub bytes: &'c [u8],
    pub ghost accepted: { check_of bytes.now ≡ 0 },
}
