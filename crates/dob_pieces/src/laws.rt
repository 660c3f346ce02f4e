// Laws of turning and mirroring. Each function does nothing; its contract is the law.
ghost use Rattle.std.specs.Prelude.{◌≡◌, ◌<◌, ℕ, length};
ghost use Rattle.dob_pieces.specs.declared.kind.Kind.{Kind};
ghost use Rattle.dob_pieces.specs.declared.kind.HandKind.{HandKind};
ghost use Rattle.dob_pieces.specs.declared.setup.Setup.{Setup};
ghost use Rattle.dob_pieces.specs.declared.profile.Profile.{Profile};
ghost use Rattle.dob_pieces.specs.Pieces.{leads};
ghost use Rattle.dob_pieces.specs.Profiles.{IsAllowed};
ghost use Rattle.dob_pieces.specs.Squares.{mirrored_square};
ghost use Rattle.dob_pieces.specs.Setups.{IsLegal, total, turned, mirrored};

/// Turning a board of twelve squares twice gives the setup back.
#[tactic(auto, using(crate::proofs::Symmetries::laws))]
pub fn turned_twice()
    ensures { (setup : Setup) → length setup.board ≡ 12 → turned (turned setup) ≡ setup }
{}

/// The mirror image of the mirror image of a board of twelve squares is the setup itself.
#[tactic(auto, using(crate::proofs::Symmetries::laws))]
pub fn mirrored_twice()
    ensures { (setup : Setup) → length setup.board ≡ 12 → mirrored (mirrored setup) ≡ setup }
{}

/// Turning and mirroring give the same in either order.
#[tactic(auto, using(crate::proofs::Symmetries::laws))]
pub fn turned_mirrored()
    ensures { (setup : Setup) → turned (mirrored setup) ≡ mirrored (turned setup) }
{}

/// Turning keeps the piece set.
#[tactic(auto, using(crate::proofs::Symmetries::laws))]
pub fn turned_total()
    ensures { (kind : HandKind) (setup : Setup) → length setup.board ≡ 12 → total kind (turned setup) ≡ total kind setup }
{}

/// Mirroring keeps the piece set.
#[tactic(auto, using(crate::proofs::Symmetries::laws))]
pub fn mirrored_total()
    ensures { (kind : HandKind) (setup : Setup) → length setup.board ≡ 12 → total kind (mirrored setup) ≡ total kind setup }
{}

/// The mirror image of a legal setup is legal.
pub fn mirrored_legal()
    ensures { (setup : Setup) → IsLegal setup → IsLegal (mirrored setup) }
{}

/// The mirror image of a setup that a profile allows is allowed by it.
#[tactic(auto, using(crate::proofs::Allowed::images))]
pub fn mirrored_allowed()
    ensures { (profile : Profile) (setup : Setup)
        → length setup.board ≡ 12
        → IsAllowed profile setup
        → IsAllowed profile (mirrored setup) }
{}

/// The mirror image of a step is a step.
#[tactic(auto, using(crate::proofs::Symmetries::laws))]
pub fn mirrored_step()
    ensures { (kind : Kind) (from to : ℕ)
        → from < 12
        → to < 12
        → leads kind (mirrored_square from) (mirrored_square to) ≡ leads kind from to }
{}
