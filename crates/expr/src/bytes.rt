// Rows of bytes that are the same: names are compared so.
ghost use Rattle.std.specs.Prelude.{◌≡◌};
ghost use Rattle.language.specs.Basics.{same};

#[tactic(auto, using(crate::proofs::SameFacts::pointwise_same))]
pub fn same_bytes(a: &[u8], b: &[u8]) -> bool
    ensures { result ≡ same a.now b.now }
{
    a == b
}
