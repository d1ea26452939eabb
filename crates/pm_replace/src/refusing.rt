//! What a builder refuses, as a reason.
ghost use Rattle.std.specs.Prelude.{◌≡◌};
ghost use Rattle.pm_replace.specs.Splices.{failed_of};

use pm_build::Refused;
use pm_change::Failed;
use pm_meaning::Reason;

/// What a builder's refusal means for a step: Join where a close met no open node of a compatible type, else running out of
/// memory. It takes no memory.
pub fn failed(refused: Refused) -> Failed<Reason>
    ensures { result ≡ failed_of refused }
{
    match refused {
        Refused::Join => Failed::Reason(Reason::Join),
        Refused::NoMemory => Failed::NoMemory,
    }
}
