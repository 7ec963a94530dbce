//! Methods with their signatures.

ghost use Rattle.std.specs.Prelude.{◌≡◌, MatchResult, option_copied};
ghost use Rattle.sg_reading.specs.Reading.{each};
ghost use Rattle.sg_reading.specs.Stop.{Reads};
ghost use Rattle.sg_reading.specs.declared.stop.Stop.TheVariants.{OutOfMemory};
ghost use Rattle.jv_names.specs.Replies.{reply_to};
ghost use Rattle.jv_names.specs.Read.{signature_of};
ghost use Rattle.jv_member.specs.Overriding.{whole_methods, params_differ, signature_among};

use jv_instance::JavaPred;
use jv_layout::Layout;
use jv_names::{Oracle, ReadSignature, read_signature_of};
use sg_base::Scope;
use sg_query::Query;
use sg_reading::Stop;
use std::alloc::Global;
use std::marker::Model;

/// The signatures of methods, in their order; none where it is not known. Contracts see their list.
#[derive(Debug, Drop)]
pub struct ReadSignatures {
    found: Vec<Option<ReadSignature>>,
}

impl Model for ReadSignatures {
    ghost use Rattle.std.specs.Prelude.{List, Option};
    ghost use Rattle.jv_names.specs.Read.{SignatureOf};

    ghost Value = { List (Option SignatureOf) };

    ghost view = { λ s. s.found.items };
}

impl ReadSignatures {
    ghost use Rattle.std.specs.Prelude.{◌≡◌, [], ◌∷◌, ◌++◌, MatchResult};
    ghost use Rattle.sg_reading.specs.declared.stop.Stop.TheVariants.{OutOfMemory};

    /// No signature.
    fn empty(alloc: Global) -> ReadSignatures
        ensures { result ≡ [] }
    {
        ReadSignatures {
            found: Vec::new(alloc),
        }
    }

    /// These signatures and one more.
    fn with(
        mut self,
        signature: Option<ReadSignature>,
    ) -> Result<ReadSignatures, Stop<Query<JavaPred>>>
        ensures { MatchResult result (λ signatures. signatures ≡ self ++ signature ∷ []) (λ stop. stop ≡ OutOfMemory) }
    {
        self.found.push(signature)?;
        Ok(self)
    }
}

/// A method with its signature.
#[derive(Debug, Drop)]
pub struct WholeMethod {
    pub scope: Scope,
    pub signature: ReadSignature,
}

impl Model for WholeMethod {
    ghost use Rattle.sg_base.specs.declared.scope.Scope.{Scope};
    ghost use Rattle.jv_names.specs.Read.{SignatureOf};

    ghost Value = { Scope × SignatureOf };

    ghost view = { λ m. (m.scope, m.signature) };
}

/// Methods with signatures whose types are not bad. Contracts see their list.
#[derive(Debug, Drop)]
pub struct WholeMethods {
    found: Vec<WholeMethod>,
}

impl Model for WholeMethods {
    ghost use Rattle.std.specs.Prelude.{List};
    ghost use Rattle.sg_base.specs.declared.scope.Scope.{Scope};
    ghost use Rattle.jv_names.specs.Read.{SignatureOf};

    ghost Value = { List (Scope × SignatureOf) };

    ghost view = { λ m. m.found.items };
}

impl WholeMethods {
    ghost use Rattle.std.specs.Prelude.{◌≡◌};

    /// The methods, first to last.
    pub fn as_slice(&self) -> &[WholeMethod]
        ensures { result.now ≡ self.now }
    {
        self.found.as_slice()
    }
}

/// The signatures of methods as far as the replies tell them, or the first query that has no reply. It takes the time of the
/// answers.
#[tactic(auto, using(crate::proofs::AboveSteps::above_steps))]
pub fn read_signatures(
    alloc: Global,
    l: &Layout,
    o: &Oracle,
    methods: &[Scope],
) -> Result<ReadSignatures, Stop<Query<JavaPred>>>
    ensures { Reads (reply_to o.now) (each (signature_of l.now) methods.now) result }
{
    let mut found = ReadSignatures::empty(alloc);
    for method in methods {
        let signature = read_signature_of(alloc, l, o, *method)?;
        found = found.with(signature)?;
    }
    Ok(found)
}

/// The methods whose signatures have no bad type. The signatures are moved.
#[tactic(auto, using(crate::proofs::WholeSteps::whole_steps))]
pub fn whole_methods(
    alloc: Global,
    methods: &[Scope],
    signatures: ReadSignatures,
) -> Result<WholeMethods, Stop<Query<JavaPred>>>
    ensures { MatchResult result (λ found. found ≡ whole_methods methods.now signatures) (λ stop. stop ≡ OutOfMemory) }
{
    let mut found = Vec::new(alloc);
    let mut rest = methods;
    for signature in signatures.found {
        match rest {
            [] => {}
            [method, more @ ..] => {
                if let Some(signature) = signature {
                    if signature.is_whole() {
                        found.push(WholeMethod {
                            scope: *method,
                            signature,
                        })?;
                    }
                }
                rest = more;
            }
        }
    }
    Ok(WholeMethods { found })
}

/// Whether some parameters differ from those of the first method. It takes time in the number of parameters.
#[tactic(auto, using(crate::proofs::WholeSteps::whole_steps))]
pub fn params_differ(methods: &[WholeMethod]) -> bool
    ensures { result ≡ params_differ methods.now }
{
    let mut first = None;
    for method in methods {
        match first {
            None => first = Some(&method.signature),
            Some(signature) => {
                if !signature.has_params_of(&method.signature) {
                    return true;
                }
            }
        }
    }
    false
}

/// The signature of a method among those. It takes time in their number.
pub fn signature_among(method: Scope, methods: &[WholeMethod]) -> Option<&ReadSignature>
    ensures { option_copied result ≡ signature_among method methods.now }
{
    for other in methods {
        if method == other.scope {
            return Some(&other.signature);
        }
    }
    None
}
