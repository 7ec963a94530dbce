use jv_diag::codes;
use std::marker::Model;

/// What may be wrong with methods of one name: two of which one stands for the other, or several that meet (JLS 8.4.8, 9.4.1).
#[derive(Debug, Drop)]
pub enum ClashKind {
    /// One of them is static and the other is not.
    Static,
    /// A final method is overridden.
    Final,
    /// The method has weaker access.
    Weaker,
    /// The result of the method does not fit.
    Result,
    /// They have other parameters.
    Params,
    /// Default methods meet, or one with another.
    Defaults,
}

/// What is wrong with methods of one name. Contracts see the code of its diagnostic.
#[derive(Debug, Drop)]
pub struct Clash {
    kind: ClashKind,
}

impl Model for Clash {
    ghost use Rattle.std.specs.Prelude.{ℕ};
    ghost use Rattle.jv_member.specs.Clashes.{clash_code};

    ghost Value = { ℕ };

    ghost view = { λ c. clash_code c.kind };
}

impl Clash {
    ghost use Rattle.std.specs.Prelude.{◌≡◌, Some};
    ghost use Rattle.jv_diag.specs.Text.{takes};
    ghost use Rattle.jv_member.specs.Clashes.{clash_code};

    /// What is wrong, by its kind.
    pub fn new(kind: ClashKind) -> Clash
        ensures { result ≡ clash_code kind }
    {
        Clash { kind }
    }

    /// The code of the diagnostic, which takes one text.
    #[tactic(auto, using(crate::proofs::Clashes::clash_takes))]
    pub fn code(&self) -> u8
        ensures value { result ≡ self.now }
        ensures text { takes result ≡ Some 1 }
    {
        match self.kind {
            ClashKind::Static => codes::STATIC_AND_INSTANCE,
            ClashKind::Final => codes::OVERRIDES_FINAL,
            ClashKind::Weaker => codes::WEAKER_ACCESS,
            ClashKind::Result => codes::OTHER_RESULT,
            ClashKind::Params => codes::OVERLOADED,
            ClashKind::Defaults => codes::DEFAULTS_MEET,
        }
    }
}
