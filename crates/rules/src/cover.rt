// Cover sources: how much each member can pay beyond what it receives.
ghost use Rattle.std.specs.Prelude.{◌≡◌, ℕ, ◌≤◌};

pub trait CoverSource {
    // The amount for each member code: the source's meaning.
    ghost covers: { Self → ℕ → ℕ };

    // The cover of the member with that code.
    fn cover(&self, code: u16) -> u64
        ensures { result ≡ covers self.now code };

    ghost limited: { (x : Self) (code : ℕ) → covers x code ≤ 1000000000000000 };
}
