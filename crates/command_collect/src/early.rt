//! What is refused before anything is opened.

ghost use Rattle.std.specs.Prelude.{◌≡◌, Some, IfSome, is_some};
ghost use Rattle.command_collect.specs.Engines.{due_fault, fault_of_engine};

use crate::engine::Engine;
use flow_collect::CollectFault;

/// The fault that collecting would answer with that many sessions, if the engine has a fault with however many.
#[tactic(auto, using(crate::proofs::Refused::early_same, crate::proofs::Refused::shown))]
pub fn refused_early(engine: Engine, sessions: usize) -> Option<CollectFault>
    ensures same { is_some result ≡ is_some (fault_of_engine engine) }
    ensures fault { IfSome result (λ fault. due_fault engine sessions ≡ Some fault) }
{
    match engine.refusal(1) {
        None => None,
        Some(_) => engine.refusal(sessions),
    }
}
